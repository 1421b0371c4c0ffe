//! Requests and their postings.
ghost use Rattle.std.specs.Prelude.{◌≡◌, Some};
ghost use Rattle.report_contents.specs.Audit.{agree, is_matched as matches};

use walked_rows::{StoredPosting, StoredRequest};

// The code of the outcome that is posted.
const POSTED: i64 = 0;

/// Whether a request and the posting of its ordinal, if there is one, belong together: it is posted just
/// where there is one, and then they agree.
pub(crate) fn is_matched(request: &StoredRequest, posting: Option<StoredPosting>) -> bool
    ensures { result ≡ matches (Some request.now) posting }
{
    let posted = request.outcome == POSTED;
    match posting {
        None => !posted,
        Some(posting) => posted & agree(request, &posting),
    }
}

// Whether they name the same account, teller and branch, and the same amount.
fn agree(request: &StoredRequest, posting: &StoredPosting) -> bool
    ensures { result ≡ agree request.now posting.now }
{
    let holders = (posting.account == request.account) & (posting.teller == request.teller);
    holders & (posting.branch == request.branch) & (posting.delta == request.delta)
}
