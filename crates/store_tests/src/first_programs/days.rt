//! The first program of dates and zones.
use message_records::Moment;
use report_contents::{first_second, read_day, read_zone, zoned_time};
use std::test::Fail;

#[test]
fn first_midnight(rt: HostRuntime) -> Result<(), Fail> {
    assert_eq!(rt; read_day("2026-11-28"), Some(20_785));
    assert_eq!(rt; read_zone("+01:00"), Some(3_600));
    assert_eq!(rt; first_second(20_785, 3_600), 1_795_820_400);
    let midnight = zoned_time(3_600, Moment::new(1_795_820_400).unwrap());
    assert_eq!(rt;
        (midnight.date.month, midnight.date.day, midnight.hour),
        (11, 28, 0)
    );
    assert_eq!(rt; read_day("2028-02-29"), Some(21_243));
    assert_eq!(rt; read_day("2027-02-29"), None);
    assert_eq!(rt; read_zone("-00:30"), Some(-1_800));
    assert_eq!(rt; read_zone("-00:00"), None);
    Ok(())
}
