//! Machines that share a log in memory: one is behind another, one isn't answered, one has what no other has.
#![tactic(auto)]

mod cell_log;
mod etcd;
mod first_log;
mod first_machine;
mod scenes;

use etcd::play_etcd;
use scenes::play;
use std::io;

fn main(rt: HostRuntime) -> io::Result<()> {
    play(rt)?;
    play_etcd(rt)
}
