//! The first program of `posting_core`.
use posting_core::{Clock, SystemClock, moment_of};
use std::test::Fail;
use std::time::{Duration, SystemTime, UNIX_EPOCH};

#[test]
fn first_moments(rt: HostRuntime) -> Result<(), Fail> {
    let opening = UNIX_EPOCH + Duration::from_secs(1_795_442_400);
    assert_eq!(rt; moment_of(Ok(opening)).get(), 1_795_442_400);
    let before = moment_of(SystemTime::now(&rt));
    let mut clock = SystemClock::new(&rt);
    assert!(rt; before.get() <= clock.now().get());
    Ok(())
}
