//! A range of time.
ghost use Rattle.std.specs.Prelude.{◌≡◌};
ghost use Rattle.report_contents.specs.Ranges.{amount_before, is_within};

use walked_rows::StatedPosting;

/// The moments from one second on, and before another, in seconds since 1970-01-01T00:00:00Z.
#[derive(Clone, Copy)]
pub struct Range {
    pub from: i64,
    pub until: i64,
}

impl Range {
    /// Whether a posting was made in it.
    pub(crate) fn has(&self, row: &StatedPosting) -> bool
        ensures { result ≡ is_within self.now row.now }
    {
        let moment = row.posting.moment.get() as i64;
        self.from <= moment && moment < self.until
    }
}

/// The amount of a posting, where it was made before a second.
pub(crate) fn amount_before(second: i64, row: &StatedPosting) -> i64
    ensures { result ≡ amount_before second row.now }
{
    if (row.posting.moment.get() as i64) < second {
        row.posting.delta
    } else {
        0
    }
}
