//! Where the time comes from.
ghost use Rattle.std.specs.Prelude.{◌≡◌, ℕ, List, Option, None};
ghost use Rattle.posting_core.specs.Clock.{IsReading};

use message_records::Moment;
use std::marker::Model;

/// What gives the moment that a record is submitted at, in seconds since 1970-01-01T00:00:00Z.
pub trait Clock {
    /// The readings to come, where they are known.
    ghost readings: { Self → Option (List ℕ) } = { λ _. None };

    /// The moment that it is.
    fn now(&mut self) -> Moment
        ensures { IsReading (readings self.old) (readings self.new) result };
}

/// A clock that gives stored moments, and the moment 0 after the last of them.
#[derive(Debug, Drop)]
pub struct StoredClock {
    moments: Vec<Moment>,
    // How many of them were told.
    given: usize,
}

impl Model for StoredClock {
    ghost use Rattle.std.specs.Prelude.{ℕ, List, drop};

    // The moments to come.
    ghost Value = { List ℕ };

    ghost view = { λ clock. drop clock.given clock.moments.items };
}

impl StoredClock {
    /// A clock that gives these moments in order.
    #[must_use]
    pub fn new(moments: Vec<Moment>) -> Self
        ensures { result ≡ moments.items }
    {
        StoredClock { moments, given: 0 }
    }
}

impl Clock for StoredClock {
    ghost use Rattle.std.specs.Prelude.{Some, []};

    ghost readings = { λ clock. Some clock };

    fn now(&mut self) -> Moment
        ensures reading { IsReading (Some self.old) (Some self.new) result }
        ensures after { self.old ≡ [] → result ≡ 0 }
    {
        let Some(&moment) = self.moments.get(self.given) else {
            return Moment::new(0).unwrap();
        };
        self.given += 1;
        moment
    }
}
