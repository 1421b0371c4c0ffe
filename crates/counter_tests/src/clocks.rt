//! The moments of readings that are known.
use posting_core::moment_of;
use std::io::{self, ErrorKind};
use std::time::{Duration, UNIX_EPOCH};

// The moment of a reading so many seconds and a half after 1970 began, or of one that failed.
fn moment_at(seconds: Option<u64>) -> u64 {
    let time = match seconds {
        Some(seconds) => UNIX_EPOCH.checked_add(Duration::new(seconds, 500_000_000)),
        None => None,
    };
    moment_of(time.ok_or(io::Error::from(ErrorKind::InvalidData))).get()
}

const READINGS: [(Option<u64>, u64); 5] = [
    (None, 0),
    (Some(0), 0),
    (Some(1_700_000_000), 1_700_000_000),
    (Some(253_402_300_799), 253_402_300_799),
    (Some(253_402_300_800), 253_402_300_799),
];

#[test]
fn whole_seconds_within_the_range(rt: HostRuntime) {
    for (seconds, want) in &READINGS {
        assert!(rt; moment_at(*seconds) == *want);
    }
}
