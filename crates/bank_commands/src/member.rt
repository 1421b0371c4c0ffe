//! A connection to a member of a quorum. **Not verified, review by hand**: no clause says of a stream where it leads, nor how
//! long a call waits.
use shared_log::Dial;
use std::net::{SocketAddr, TcpStream};
use std::time::Duration;

// How many seconds a member is waited for at most: until it is connected to, takes a request, and gives each part of its answer.
const PATIENCE: u64 = 2;

/// A member of a quorum, at its address.
#[derive(Drop)]
pub(crate) struct Member<'r> {
    rt: &'r HostRuntime,
    address: SocketAddr,
}

impl<'r> Member<'r> {
    pub fn new(rt: &'r HostRuntime, address: SocketAddr) -> Member<'r> {
        Member { rt, address }
    }
}

impl Dial for Member<'_> {
    type Reader = TcpStream;

    type Writer = TcpStream;

    fn dial(&mut self) -> Option<(TcpStream, TcpStream)> {
        let patience = Duration::from_secs(PATIENCE);
        let reader = TcpStream::connect_timeout(self.rt, &self.address, patience).ok()?;
        reader.set_nodelay(true).ok()?;
        reader.set_read_timeout(Some(patience)).ok()?;
        reader.set_write_timeout(Some(patience)).ok()?;
        let writer = reader.try_clone().ok()?;
        Some((reader, writer))
    }
}
