//! The network of the machine. **Not verified, review by hand**: no clause says of a listener where it is bound, nor which
//! clients it gives, nor of a log whose it is.
use crate::member::Member;
use crate::progress::Progress;
use command_line::Network;
use counter_http::TcpClients;
use libc::net::{POLLIN, poll};
use libc::types::pollfd;
use posting_core::SystemClock;
use shared_log::DialedLog;
use std::io::{self, IsTerminal, Stderr};
use std::net::{SocketAddr, TcpListener, ToSocketAddrs};
use std::os::fd::AsRawFd;

// How long the standard input is waited for each time, in milliseconds.
const MILLIS: i32 = 50;

/// The network that a machine is on. Who waits at a terminal is told how the serving goes. A machine that stands by is to
/// serve once its standard input gives something, or ends.
#[derive(Drop)]
pub(crate) struct HostNetwork<'r> {
    rt: &'r HostRuntime,
}

impl<'r> HostNetwork<'r> {
    pub fn new(rt: &'r HostRuntime) -> HostNetwork<'r> {
        HostNetwork { rt }
    }
}

impl<'r> Network for HostNetwork<'r> {
    type Clients = TcpClients<'r, HostRuntime, Progress<Stderr, SystemClock<&'r HostRuntime>>>;

    type Log = DialedLog<Member<'r>>;

    fn bind(&self, address: &str) -> io::Result<(Self::Clients, SocketAddr)> {
        let rt = self.rt;
        let listener = TcpListener::bind(rt, address)?;
        let bound = listener.local_addr()?;
        let watch = Progress::new(rt.stderr(), rt.stderr().is_terminal(), SystemClock::new(rt));
        Ok((TcpClients::new(rt.alloc(), listener, rt, watch)?, bound))
    }

    fn share(&self, member: &str, name: &str) -> Option<DialedLog<Member<'r>>> {
        let rt = self.rt;
        let address = member.to_socket_addrs(rt).ok()?.next()?;
        let name = Vec::from_slice(rt.alloc(), name.as_bytes()).ok()?;
        DialedLog::connect(rt.alloc(), name, Member::new(rt, address))
    }

    fn is_turn(&self) -> bool {
        let mut asked = [pollfd {
            fd: self.rt.stdin().as_raw_fd(),
            events: POLLIN,
            revents: 0,
        }];
        poll(&mut asked, MILLIS) > 0
    }
}
