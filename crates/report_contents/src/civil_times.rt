//! Dates, times and zones as people write them, and the seconds that they are.
//!
//! [`read_day`] reads a date as `2026-11-28`, and [`read_zone`] how many seconds a zone as `+01:00` is ahead of
//! UTC. Each has one spelling; what is none is `None`. [`first_second`] gives the second with which a day begins
//! in a zone, and [`zoned_time`] the date and the time of day that a moment has there. The test `first_midnight`
//! of `store_tests` reads some:
//!
//! ```rust
//! use message_records::Moment;
//! use report_contents::{first_second, read_day, read_zone, zoned_time};
//! use std::test::Fail;
//!
//! fn first_midnight(rt: HostRuntime) -> Result<(), Fail> {
//!     assert_eq!(rt; read_day("2026-11-28"), Some(20_785));
//!     assert_eq!(rt; read_zone("+01:00"), Some(3_600));
//!     assert_eq!(rt; first_second(20_785, 3_600), 1_795_820_400);
//!     let midnight = zoned_time(3_600, Moment::new(1_795_820_400).unwrap());
//!     assert_eq!(rt;
//!         (midnight.date.month, midnight.date.day, midnight.hour),
//!         (11, 28, 0)
//!     );
//!     assert_eq!(rt; read_day("2028-02-29"), Some(21_243));
//!     assert_eq!(rt; read_day("2027-02-29"), None);
//!     assert_eq!(rt; read_zone("-00:30"), Some(-1_800));
//!     assert_eq!(rt; read_zone("-00:00"), None);
//!     Ok(())
//! }
//! ```
//!
//! `specs/Calendar` says which dates there are from 1970 to 9999, and how many days are before each;
//! `specs/Reading` how they are written; `specs/Zoned` which date and time of day a moment has.
mod calendar;
mod reading;
mod zoned;

pub use calendar::{LAST_DAY, MAX_AHEAD, first_second};
pub use reading::{read_day, read_zone};
pub use zoned::{Date, ZonedTime, zoned_time};
