//! A counter that takes requests, whatever keeps its tables.
ghost use Rattle.std.specs.Prelude.{◌≡◌, ◌≤◌, ◌≤ℤ◌, pos, [], ◌∷◌, length, IfOk, IfSome, OnOk};
ghost use Rattle.message_records.specs.believed.Spelling.{reply_spelling};
ghost use Rattle.posting_rules.specs.Branches.{IsNextBranch, IsLineAbove};
ghost use Rattle.posting_rules.specs.believed.Commands.{Open, Post, opened_with};
ghost use Rattle.posting_rules.specs.believed.Entries.{reply, balance_after};
ghost use Rattle.posting_rules.specs.believed.AnyTables.{AnswersByTables, OpensByTables};
ghost use Rattle.posting_rules.specs.believed.Counter.{Seen, Answers, IsCounterCall, opening_after};
ghost use Rattle.posting_rules.specs.Counter.{LeavesSomething, StaysByTables};
ghost use Rattle.posting_rules.specs.believed.Runs.{posts, replies_to};
ghost use Rattle.posting_rules.specs.declared.fault.Fault.{Fault as Cause};

use crate::fault::Fault;
use crate::limits::{LAST_BRANCH, MAX_ACCOUNTS, RECORDS_PER_BATCH};
use message_records::{Account, Branch, Cents, Moment, REPLY_BYTES, REQUEST_BYTES};

/// The answer to an opening.
#[derive(Clone, Copy, Debug, PartialEq, Eq)]
pub enum Opening {
    /// The branch is open from now on.
    Opened,
    /// It was open with this count of accounts and this floor.
    Already,
    /// It was open with another count or another floor, which stay.
    Differs,
}

/// An open branch.
#[derive(Clone, Copy, Debug, PartialEq, Eq)]
pub struct BranchLine {
    /// Its number: 1..=`LAST_BRANCH`.
    pub branch: Branch,
    /// How many accounts it has: 1..=`MAX_ACCOUNTS`.
    pub accounts: u32,
    /// Its balance in cents.
    pub balance: Cents,
    /// The lowest balance that its accounts may have, in cents: zero at most. None where they have no floor.
    pub floor: Option<Cents>,
}

/// A counter of the bank. What it answers is said by the log of commands that its tables show: it holds of
/// every log that they show, wherever the disk is honest.
///
/// What every call promises is one record, `IsCounterCall`, so that what holds after a fault is the same for
/// each. After `Memory` nothing has changed, and the counter can be used. After `Store`, `Down` and `Damaged`
/// it is down, and every later call answers `Down` and changes nothing. After `Store` what is found is what
/// stood before, with a prefix of the call's commands after it; after `Damaged` no row has changed.
/// Whatever a call answers, what no call touches is as it was (`spares`).
pub trait Counter {
    /// Its tables, whether it is down, what a crash at this moment may leave, and whether the disk is honest.
    ghost seen: { Self → Seen };

    /// All that it keeps, whether or not that is a bank: of a bank in a file its whole database.
    ghost Contents: { Type 0 };

    /// What it keeps at this moment. Damage leaves it.
    ghost contents: { Self → Contents };

    /// What a fault says of a call that it refused, from the counter before to the counter after: which call of
    /// the store failed, or which rule the rows break.
    ghost reason: { Cause → Self → Self → Type 0 };

    /// What no call of it touches is as it was, from the counter before to the counter after: of a bank in a
    /// file, the tables of other products.
    ghost spares: { Self → Self → Type 0 };

    /// Submits the bytes of a record, and answers those of its reply (TPC-B 1.2). Bytes that are
    /// no request get the reply `Malformed`.
    fn submit(
        &mut self,
        moment: Moment,
        bytes: &[u8; REQUEST_BYTES],
    ) -> Result<[u8; REPLY_BYTES], Fault>
        ensures answer { Answers (seen self.old) (seen self.new) result
            (λ log out. out ≡ reply_spelling (reply log bytes.now)) }
        ensures call { IsCounterCall seen contents reason self.old self.new (Post moment bytes.now ∷ [])
            result }
        ensures by_tables { IfOk result (λ out. AnswersByTables (seen self.old) (seen self.new) moment
            (bytes.now ∷ []) (out ∷ [])) }
        ensures spares { spares self.old self.new };

    /// Submits 1 to `RECORDS_PER_BATCH` records at one moment, and answers their replies in order, as if each
    /// record were submitted after the one before it. After a fault no reply is handed out.
    fn submit_all(
        &mut self,
        moment: Moment,
        records: &[[u8; REQUEST_BYTES]],
    ) -> Result<Vec<[u8; REPLY_BYTES]>, Fault>
        requires some { 1 ≤ length records.now }
        requires few { length records.now ≤ RECORDS_PER_BATCH }
        ensures count { IfOk result (λ replies. length replies.items ≡ length records.now) }
        ensures answer { Answers (seen self.old) (seen self.new) result
            (λ log replies. replies.items ≡ replies_to log (posts moment records.now)) }
        ensures call { IsCounterCall seen contents reason self.old self.new (posts moment records.now) result }
        ensures by_tables { IfOk result (λ replies. AnswersByTables (seen self.old) (seen self.new) moment
            records.now replies.items) }
        ensures spares { spares self.old self.new };

    /// Opens a branch of 1 to `LAST_BRANCH`, its tellers, and 1 to `MAX_ACCOUNTS` accounts, all with a
    /// balance of zero. With a floor, which is zero at most, no posting takes one of its accounts below that.
    /// A branch that is open stays as it is.
    fn open_branch(
        &mut self,
        branch: Branch,
        count: u32,
        floor: Option<Cents>,
    ) -> Result<Opening, Fault>
        requires branch { branch ≤ LAST_BRANCH }
        requires some { 1 ≤ count }
        requires few { count ≤ MAX_ACCOUNTS }
        requires floor { IfSome floor (λ z. z ≤ℤ pos 0) }
        ensures answer { Answers (seen self.old) (seen self.new) result
            (λ log opening. opening ≡ opening_after log branch (opened_with count floor)) }
        ensures call { IsCounterCall seen contents reason self.old self.new
            (Open branch (opened_with count floor) ∷ []) result }
        ensures by_tables { IfOk result (OpensByTables (seen self.old) (seen self.new) branch
            (opened_with count floor)) }
        ensures spares { spares self.old self.new };

    /// The balance of an account in cents; none where it isn't open. It changes nothing.
    fn balance(&mut self, account: Account) -> Result<Option<Cents>, Fault>
        ensures answer { Answers (seen self.old) (seen self.new) result
            (λ log balance. balance ≡ balance_after log account) }
        ensures call { IsCounterCall seen contents reason self.old self.new [] result }
        ensures by_tables { OnOk result (StaysByTables (seen self.old) (seen self.new)) }
        ensures spares { spares self.old self.new };

    /// The open branch with the least number above this one; none where no such branch is open. It changes
    /// nothing. Whatever the tables hold, a branch that it answers is above this one, and its number, its count
    /// and its floor are in their ranges.
    fn next_branch(&mut self, after: u32) -> Result<Option<BranchLine>, Fault>
        ensures answer { Answers (seen self.old) (seen self.new) result
            (λ log line. IsNextBranch log after line) }
        ensures within { IfOk result (λ line. IfSome line (IsLineAbove after)) }
        ensures call { IsCounterCall seen contents reason self.old self.new [] result }
        ensures by_tables { OnOk result (StaysByTables (seen self.old) (seen self.new)) }
        ensures spares { spares self.old self.new };

    // What is said of everything that a crash may leave is said of something.
    ghost leaves_something: { (counter : Self) → LeavesSomething (seen counter) };

    // So it is where nothing was called, and after two calls.
    ghost spares_itself: { (counter : Self) → spares counter counter };

    ghost spares_then: { (old mid new : Self) → spares old mid → spares mid new → spares old new };
}
