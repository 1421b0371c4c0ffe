//! The program of the page of `src/etcd` of `shared_log`.
use shared_log::{Dial, DialedLog};
use std::alloc::Global;

pub fn first_log<D: Dial + Drop>(alloc: Global, dial: D) -> Option<DialedLog<D>> {
    let Ok(name) = Vec::from_slice(alloc, b"office") else {
        return None;
    };
    DialedLog::connect(alloc, name, dial)
}
