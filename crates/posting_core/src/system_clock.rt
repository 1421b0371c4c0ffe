//! The clock by which the program dates postings: the system's time in whole seconds, as a [`Moment`]. It
//! never fails: without a time it is the moment 0. The test `first_moments` of `counter_tests` takes the
//! moment of a known time, and asks the clock:
//!
//! ```rust
//! use posting_core::{Clock, SystemClock, moment_of};
//! use std::test::Fail;
//! use std::time::{Duration, SystemTime, UNIX_EPOCH};
//!
//! fn first_moments(rt: HostRuntime) -> Result<(), Fail> {
//!     let opening = UNIX_EPOCH + Duration::from_secs(1_795_442_400);
//!     assert_eq!(rt; moment_of(Ok(opening)).get(), 1_795_442_400);
//!     let before = moment_of(SystemTime::now(&rt));
//!     let mut clock = SystemClock::new(&rt);
//!     assert!(rt; before.get() <= clock.now().get());
//!     Ok(())
//! }
//! ```
//!
//! Read next: [`moment_of`], with what each reading becomes; `posting_core::Clock`, the trait that a stream
//! asks once for each batch.
ghost use Rattle.std.specs.Prelude.{◌≡◌, ℕ, List, [], ◌∷◌, Option, None};
ghost use Rattle.posting_core.specs.Clock.{IsReading};
ghost use Rattle.posting_core.specs.believed.EndCalls.{GrowsBy};
ghost use Rattle.posting_core.specs.Readings.{Reading, moment_at, reading_of, source_of};

use crate::clock::Clock;
use message_records::{MAX_MOMENT, Moment};
use std::io;
use std::rt::Clock as TimeSource;
use std::time::{SystemTime, UNIX_EPOCH};

/// A source of the time. Every clock of the standard library is one. A type of its own may also know what its
/// readings gave.
pub trait TimeTeller {
    /// What each reading gave so far, if that is known.
    ghost calls: { Self → Option (List Reading) } = { λ _. None };

    /// Reads the time once.
    ///
    /// # Errors
    ///
    /// Those of the system. A later reading may succeed.
    fn tell(&mut self) -> io::Result<SystemTime>
        ensures { GrowsBy (calls self.old) (calls self.new) (reading_of result ∷ []) };
}

impl<T: TimeSource> TimeTeller for T {
    fn tell(&mut self) -> io::Result<SystemTime> {
        SystemTime::now(self)
    }
}

/// The clock of the system, in whole seconds since 1970-01-01T00:00:00Z: 0..=`MAX_MOMENT`.
#[derive(Debug, Drop)]
pub struct SystemClock<T> {
    source: T,
}

impl<T: TimeTeller> SystemClock<T> {
    /// The clock that reads this source.
    #[must_use]
    pub fn new(source: T) -> Self
        ensures { source_of result ≡ source }
    {
        SystemClock { source }
    }
}

impl<T: TimeTeller> Clock for SystemClock<T> {
    // One reading of the source, and the moment of it.
    fn now(&mut self) -> Moment
        ensures reading { IsReading None None result }
        ensures calls { (reading : Reading) × (result ≡ moment_at reading)
            × GrowsBy (T.calls (source_of self.old)) (T.calls (source_of self.new)) (reading ∷ []) }
    {
        moment_of(self.source.tell())
    }
}

/// The moment of a reading: the last one where the time is later, and 0 where there is no time, as
/// before 1970. It never fails.
#[must_use]
pub fn moment_of(reading: io::Result<SystemTime>) -> Moment
    ensures { result ≡ moment_at (reading_of reading) }
{
    let Ok(time) = reading else {
        return Moment::new(0).unwrap();
    };
    let Ok(since) = time.duration_since(UNIX_EPOCH) else {
        return Moment::new(0).unwrap();
    };
    Moment::new(since.as_secs().min(MAX_MOMENT)).unwrap()
}
