//! The ordinals that aren't matched.
ghost use Rattle.std.specs.Prelude.{◌≡◌, ◌<◌, ◌≤◌, ◌+◌, ◌++◌, ◌∷◌, [], List};
ghost use Rattle.std.specs.Prelude.{Option, length};
ghost use Rattle.report_contents.specs.declared.limits.TheConstants.{MAX_ROWS};
ghost use Rattle.walked_rows.specs.declared.postings.StoredPosting.{StoredPosting};
ghost use Rattle.walked_rows.specs.declared.requests.StoredRequest.{StoredRequest};

use crate::limits::MAX_ROWS;
use crate::matching::is_matched;
use crate::sum::Sum;
use walked_rows::{StoredPosting, StoredRequest};

/// How many requests and postings there are, what the postings add up to, and how many ordinals aren't
/// matched.
#[derive(Clone, Copy)]
pub struct OrdinalSums {
    requests: u64,
    history: Sum,
    unmatched: u64,
    ghost few: { requests ≤ MAX_ROWS },
    ghost fewer: { unmatched ≤ requests + history.count },
}

impl OrdinalSums {
    ghost use Rattle.report_contents.specs.Added.{HasBeside};

    /// No request, and no posting.
    pub fn none() -> OrdinalSums
        ensures { HasBeside result [] [] }
    {
        OrdinalSums {
            requests: 0,
            history: Sum::zero(),
            unmatched: 0,
        }
    }

    /// Adds a request with the posting of its ordinal, if there is one.
    pub fn add_request(&mut self, request: StoredRequest, posting: Option<StoredPosting>)
        requires room { (requests : List (StoredRequest × Option StoredPosting))
            × (history : List (StoredPosting × Option StoredRequest))
            × HasBeside self.old requests history × (length requests < MAX_ROWS) }
        ensures added { (requests : List (StoredRequest × Option StoredPosting))
            (history : List (StoredPosting × Option StoredRequest))
            → HasBeside self.old requests history
            → HasBeside self.new (requests ++ (request, posting) ∷ []) history }
    {
        let odd = u64::from(!is_matched(&request, posting));
        *self = OrdinalSums {
            requests: self.requests + 1,
            history: self.history,
            unmatched: self.unmatched + odd,
        };
    }

    /// Adds a posting with the request of its ordinal, if there is one.
    pub fn add_posting(&mut self, posting: StoredPosting, request: Option<StoredRequest>)
        requires room { (requests : List (StoredRequest × Option StoredPosting))
            × (history : List (StoredPosting × Option StoredRequest))
            × HasBeside self.old requests history × (length history < MAX_ROWS) }
        ensures added { (requests : List (StoredRequest × Option StoredPosting))
            (history : List (StoredPosting × Option StoredRequest))
            → HasBeside self.old requests history
            → HasBeside self.new requests (history ++ (posting, request) ∷ []) }
    {
        let alone = u64::from(request.is_none());
        *self = OrdinalSums {
            requests: self.requests,
            history: self.history.plus(posting.delta),
            unmatched: self.unmatched + alone,
        };
    }

    pub(crate) fn requests(&self) -> u64
        ensures { result ≡ self.now.requests }
    {
        self.requests
    }

    pub(crate) fn history(&self) -> Sum
        ensures { result ≡ self.now.history }
    {
        self.history
    }

    pub(crate) fn unmatched(&self) -> u64
        ensures { result ≡ self.now.unmatched }
    {
        self.unmatched
    }
}
