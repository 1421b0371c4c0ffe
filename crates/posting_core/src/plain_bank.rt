//! A bank in memory.
ghost use Rattle.std.specs.Prelude.{◌≡◌, ◌≤◌, ◌≤ℤ◌, ◌<◌, ◌+◌, ◌-◌, ◌*◌, [], ◌∷◌, ◌++◌, pos, length, vec_len};
ghost use Rattle.std.specs.Prelude.{vec_capacity, All, IfErr, IfSome, IsTrue, OnOk};
ghost use Rattle.posting_rules.specs.declared.limits.TheConstants.{MAX_DECIDED};
ghost use Rattle.posting_rules.specs.Branches.{IsAtMostZero, IsInRange};
ghost use Rattle.posting_rules.specs.believed.Commands.{IsFloor};
ghost use Rattle.posting_rules.specs.believed.Kept.{is_kept_with};
ghost use Rattle.posting_rules.specs.believed.Entries.{DecidedRequest};
ghost use Rattle.posting_rules.specs.believed.Tables.{request_row_of};
ghost use Rattle.posting_batch.specs.Judging.{reference_after};
ghost use Rattle.posting_core.specs.Appended.{HasOrdinalsTo, rows_from};

mod followed;

use crate::branches::{count_at, floor_at, next_at, put_floor};
use crate::walking::{NewRow, kept_at, put, put_reference};
use message_records::{
    Account, Branch, Cents, MAX_ACCOUNT, MAX_MOMENT, MAX_TELLER, Moment, Number, Outcome,
    REPLY_BYTES, REQUEST_BYTES, Request, Teller, decode_request, encode_reply,
};
use posting_batch::{balance_at, change_at};
use posting_rules::{
    AccountRow, BranchLine, BranchRow, Closing, ClosingRow, Counter, Fault, FloorRow, Found,
    HistoryRow, LAST_BRANCH, MAX_ACCOUNTS, Opening, Ordinal, ReferenceRow, RequestRow,
    TELLERS_PER_BRANCH, TellerRow, Verdict, books_of, branch_of_account, branch_of_teller,
    closing_for, first_account, first_teller, judge, malformed_reply, reply_to,
};
use std::alloc::Global;

// Keeps a decided request after the others, with its reference, for which there is room.
fn keep(
    requests: &mut Vec<RequestRow>,
    references: &mut Vec<ReferenceRow>,
    request: &Request,
    outcome: Outcome,
    balance: Cents,
)
    requires room { vec_len requests.old < vec_capacity requests.old }
    requires references { vec_len references.old < vec_capacity references.old }
    requires few { vec_len requests.old < MAX_DECIDED }
    requires kept { IsTrue (is_kept_with outcome balance) }
    ensures items { requests.new.items ≡ requests.old.items
        ++ request_row_of (length requests.old.items + 1)
        (record { moment = 0; request = request.now; outcome = outcome; balance = balance }) ∷ [] }
    ensures len { vec_len requests.new ≡ vec_len requests.old + 1 }
    ensures capacity { vec_capacity requests.old ≤ vec_capacity requests.new }
    ensures references { references.new.items
        ≡ reference_after (length requests.old.items + 1) request.now.reference references.old.items }
    ensures references_len { vec_len references.new ≤ vec_len references.old + 1 }
    ensures references_capacity { vec_capacity references.old ≤ vec_capacity references.new }
{
    let ordinal = Ordinal::new(requests.len() as u64 + 1).unwrap();
    put(
        requests,
        RequestRow::decided(ordinal, request, outcome, balance),
    );
    put_reference(references, ordinal, request.reference());
}

impl NewRow for TellerRow {
    ghost use Rattle.message_records.specs.declared.limits.TheConstants.{MAX_TELLER};
    ghost use Rattle.posting_rules.specs.believed.Changes.{new_teller};

    ghost most = { MAX_TELLER };

    ghost row_of = { new_teller };

    fn numbered(number: u64) -> Self {
        TellerRow {
            teller: Teller::new(number).unwrap(),
            balance: Cents::zero(),
        }
    }
}

impl NewRow for AccountRow {
    ghost use Rattle.message_records.specs.declared.limits.TheConstants.{MAX_ACCOUNT};
    ghost use Rattle.posting_rules.specs.believed.Changes.{new_account};

    ghost most = { MAX_ACCOUNT };

    ghost row_of = { new_account };

    fn numbered(number: u64) -> Self {
        AccountRow {
            account: Account::new(number).unwrap(),
            balance: Cents::zero(),
        }
    }
}

// Puts new rows after the others, for which there is room.
fn put_new<R: NewRow + Drop>(rows: &mut Vec<R>, first: u64, count: u64)
    requires room { vec_len rows.old + count ≤ vec_capacity rows.old }
    requires above { 1 ≤ first }
    requires below { first + count ≤ R.most + 1 }
    requires fits { first + count ≤ MAX_ACCOUNT + 1 }
    ensures { rows.new.items ≡ rows.old.items ++ rows_from R.row_of first count }
{
    for place in 0..count {
        put(rows, R::numbered(first + place));
    }
}

// The range of a moment. A contract sees of a moment its number alone, so that a function whose callers need
// the range has to read it.
fn read_range(moment: Moment)
    ensures { moment ≤ MAX_MOMENT }
{
    let _seconds = moment.get();
}

// The range of a floor, of which the same holds.
fn read_floor(floor: Option<Cents>)
    requires { IfSome floor (λ z. z ≤ℤ pos 0) }
    ensures { IfSome floor IsFloor }
{
    if let Some(lowest) = floor {
        let _cents = lowest.get();
    }
}

/// A bank in memory, which finds its rows by walking. It is never down, and refuses a call only for want of
/// memory, before it changed anything.
#[derive(Debug)]
pub struct PlainBank {
    alloc: Global,
    branches: Vec<BranchRow>,
    tellers: Vec<TellerRow>,
    accounts: Vec<AccountRow>,
    history: Vec<HistoryRow>,
    requests: Vec<RequestRow>,
    floors: Vec<FloorRow>,
    references: Vec<ReferenceRow>,
    closings: Vec<ClosingRow>,
    ghost few: { length requests.items ≤ MAX_DECIDED },
    ghost in_range: { All IsInRange branches.items },
    ghost at_most_zero: { All IsAtMostZero floors.items },
    ghost counted: { HasOrdinalsTo (length requests.items) history.items requests.items references.items },
}

// It is written out, so that a caller does not prove again how each part is dropped.
impl Drop for PlainBank {
    fn drop(self) {
        let PlainBank {
            alloc: _,
            branches: _,
            tellers: _,
            accounts: _,
            history: _,
            requests: _,
            floors: _,
            references: _,
            closings: _,
        } = self;
    }
}

impl PlainBank {
    ghost use Rattle.posting_rules.specs.Cases.{IsProper};
    ghost use Rattle.posting_rules.specs.believed.Changes.{tables_after, tables_past, tables_past_all};
    ghost use Rattle.posting_rules.specs.believed.Changes.{reply_past, replies_past_all};
    ghost use Rattle.posting_rules.specs.believed.Tables.{AreTablesOf};
    ghost use Rattle.posting_rules.specs.believed.Counter.{opening_for};
    ghost use Rattle.posting_rules.specs.believed.LookUps.{found_in, terms_in};
    ghost use Rattle.posting_rules.specs.Branches.{line_in};
    ghost use Rattle.posting_rules.specs.believed.Commands.{opened_with};
    ghost use Rattle.posting_core.specs.Appended.{appended_opened};
    ghost use Rattle.posting_core.specs.Plain.{plain_tables};

    /// A bank with no branch. It takes no memory.
    #[must_use]
    pub fn new(alloc: Global) -> Self
        ensures { AreTablesOf (plain_tables result) [] }
    {
        PlainBank {
            alloc,
            branches: Vec::new(alloc),
            tellers: Vec::new(alloc),
            accounts: Vec::new(alloc),
            history: Vec::new(alloc),
            requests: Vec::new(alloc),
            floors: Vec::new(alloc),
            references: Vec::new(alloc),
            closings: Vec::new(alloc),
        }
    }

    // All that is looked up for a request.
    fn look_up(&self, request: &Request) -> Found
        ensures value { result ≡ found_in (plain_tables self.now) request.now }
        ensures few { result.decided ≤ MAX_DECIDED }
    {
        let teller = balance_at(&self.tellers, request.teller().get());
        let branch = balance_at(&self.branches, branch_of_teller(request.teller()));
        Found {
            teller: teller.zip(branch),
            kept: kept_at(
                &self.requests,
                &self.references,
                request.teller(),
                request.number(),
            ),
            books: books_of(&self.closings, request.teller(), request.number()),
            decided: self.requests.len() as u64,
            account: balance_at(&self.accounts, request.account().get()),
            floor: floor_at(&self.floors, branch_of_account(request.account())),
        }
    }

    // Changes the rows as the verdict says, for which there is room.
    fn apply(&mut self, moment: Moment, request: &Request, verdict: &Verdict)
        requires proper { IsProper (found_in (plain_tables self.old) request.now) verdict.now }
        requires requests { vec_len self.old.requests < vec_capacity self.old.requests }
        requires history { vec_len self.old.history < vec_capacity self.old.history }
        requires references { vec_len self.old.references < vec_capacity self.old.references }
        ensures requests { (vec_len self.new.requests ≤ vec_len self.old.requests + 1)
            × (vec_capacity self.old.requests ≤ vec_capacity self.new.requests) }
        ensures history { (vec_len self.new.history ≤ vec_len self.old.history + 1)
            × (vec_capacity self.old.history ≤ vec_capacity self.new.history) }
        ensures references { (vec_len self.new.references ≤ vec_len self.old.references + 1)
            × (vec_capacity self.old.references ≤ vec_capacity self.new.references) }
        ensures tables { plain_tables self.new ≡ tables_after (plain_tables self.old) moment request.now
            verdict.now }
    {
        match verdict {
            Verdict::Unkept(_) | Verdict::Again(_) => {}
            Verdict::Refused(outcome) => keep(
                &mut self.requests,
                &mut self.references,
                request,
                *outcome,
                Cents::zero(),
            ),
            Verdict::Posted {
                account,
                teller,
                branch,
            } => {
                let home = branch_of_teller(request.teller());
                let ordinal = Ordinal::new(self.requests.len() as u64 + 1).unwrap();
                change_at(&mut self.accounts, request.account().get(), *account);
                change_at(&mut self.tellers, request.teller().get(), *teller);
                change_at(&mut self.branches, home, *branch);
                put(
                    &mut self.history,
                    HistoryRow::posted(ordinal, moment, request),
                );
                keep(
                    &mut self.requests,
                    &mut self.references,
                    request,
                    Outcome::Posted,
                    *account,
                );
            }
        }
    }

    // Makes room for so many decided requests.
    fn make_room(&mut self, count: usize) -> Result<(), Fault>
        ensures requests { OnOk result (vec_len self.new.requests + count ≤ vec_capacity self.new.requests) }
        ensures history { OnOk result (vec_len self.new.history + count ≤ vec_capacity self.new.history) }
        ensures references { OnOk result
            (vec_len self.new.references + count ≤ vec_capacity self.new.references) }
        ensures memory { IfErr result (λ fault. fault ≡ Fault.Memory) }
        ensures stays { plain_tables self.new ≡ plain_tables self.old }
    {
        self.history.reserve(count)?;
        self.requests.reserve(count)?;
        self.references.reserve(count)?;
        Ok(())
    }

    // Submits a record, for which there is room.
    fn submit_within_capacity(
        &mut self,
        moment: Moment,
        bytes: &[u8; REQUEST_BYTES],
    ) -> [u8; REPLY_BYTES]
        requires requests { vec_len self.old.requests < vec_capacity self.old.requests }
        requires history { vec_len self.old.history < vec_capacity self.old.history }
        requires references { vec_len self.old.references < vec_capacity self.old.references }
        ensures requests { (vec_len self.new.requests ≤ vec_len self.old.requests + 1)
            × (vec_capacity self.old.requests ≤ vec_capacity self.new.requests) }
        ensures history { (vec_len self.new.history ≤ vec_len self.old.history + 1)
            × (vec_capacity self.old.history ≤ vec_capacity self.new.history) }
        ensures references { (vec_len self.new.references ≤ vec_len self.old.references + 1)
            × (vec_capacity self.old.references ≤ vec_capacity self.new.references) }
        ensures reply { result ≡ reply_past (plain_tables self.old) bytes.now }
        ensures tables { plain_tables self.new ≡ tables_past (plain_tables self.old) moment bytes.now }
    {
        let Ok(request) = decode_request(bytes) else {
            return encode_reply(&malformed_reply());
        };
        let found = self.look_up(&request);
        let verdict = judge(&found, &request);
        self.apply(moment, &request, &verdict);
        encode_reply(&reply_to(&found, &request, &verdict))
    }

    // Submits records in order, for which there is room, and puts the replies after the others.
    fn submit_all_within_capacity(
        &mut self,
        moment: Moment,
        records: &[[u8; REQUEST_BYTES]],
        replies: &mut Vec<[u8; REPLY_BYTES]>,
    )
        requires requests { vec_len self.old.requests + length records.now ≤ vec_capacity self.old.requests }
        requires history { vec_len self.old.history + length records.now ≤ vec_capacity self.old.history }
        requires references { vec_len self.old.references + length records.now
            ≤ vec_capacity self.old.references }
        requires replies { vec_len replies.old + length records.now ≤ vec_capacity replies.old }
        ensures tables { plain_tables self.new ≡ tables_past_all (plain_tables self.old) moment records.now }
        ensures replies { replies.new.items ≡ replies.old.items
            ++ replies_past_all (plain_tables self.old) moment records.now }
    {
        for bytes in records {
            let reply = self.submit_within_capacity(moment, bytes);
            put(replies, reply);
        }
    }

    // What is answered to an opening.
    fn opening_of(&self, branch: Branch, count: u32, floor: &Option<Cents>) -> Opening
        ensures value { result ≡ opening_for (terms_in (plain_tables self.now) branch)
            (opened_with count floor.now) }
        ensures above { 1 ≤ branch }
    {
        let Some(accounts) = count_at(&self.branches, branch.get()) else {
            return Opening::Opened;
        };
        if accounts == count && floor_at(&self.floors, branch.get()) == *floor {
            Opening::Already
        } else {
            Opening::Differs
        }
    }

    // Adds a branch, for whose rows there is room.
    fn add_branch(&mut self, branch: Branch, count: u32, floor: Option<Cents>)
        requires branch { branch ≤ LAST_BRANCH }
        requires some { 1 ≤ count }
        requires few { count ≤ MAX_ACCOUNTS }
        requires floor { IfSome floor (λ z. z ≤ℤ pos 0) }
        requires branches { vec_len self.old.branches < vec_capacity self.old.branches }
        requires tellers { vec_len self.old.tellers + TELLERS_PER_BRANCH ≤ vec_capacity self.old.tellers }
        requires accounts { vec_len self.old.accounts + count ≤ vec_capacity self.old.accounts }
        requires floors { vec_len self.old.floors < vec_capacity self.old.floors }
        ensures tables { plain_tables self.new
            ≡ appended_opened (plain_tables self.old) branch (opened_with count floor) }
    {
        let row = BranchRow {
            branch,
            accounts: count,
            balance: Cents::zero(),
        };
        put(&mut self.branches, row);
        put_new(&mut self.tellers, first_teller(branch), TELLERS_PER_BRANCH);
        put_new(&mut self.accounts, first_account(branch), u64::from(count));
        put_floor(&mut self.floors, branch, floor);
    }

    // What a row and its floor say of a branch.
    fn line(&self, row: BranchRow) -> BranchLine
        ensures value { result ≡ line_in (plain_tables self.now) row }
        ensures floor { IfSome result.floor (λ z. z ≤ℤ pos 0) }
    {
        BranchLine {
            branch: row.branch,
            accounts: row.accounts,
            balance: row.balance,
            floor: floor_at(&self.floors, row.branch.get()),
        }
    }
}

// Numbers are closed: where they are free, a run is added, and otherwise nothing changes.
impl PlainBank {
    ghost use Rattle.posting_rules.specs.Closings.{closing_after};
    ghost use Rattle.posting_rules.specs.believed.Commands.{Close, IsCommand, number_key};
    ghost use Rattle.posting_rules.specs.believed.Counter.{Answers, IsCounterCall};
    ghost use Rattle.posting_core.specs.Appended.{appended_run};
    ghost use Rattle.posting_core.specs.Plain.{plain_reason, plain_seen, plain_tables};

    /// Closes the numbers of a teller from the first to the last: closed books decided them, so that a request under
    /// one of them is refused from now on, unless it is kept here. It closes them all or none.
    pub fn close_numbers(
        &mut self,
        teller: Teller,
        first: Number,
        last: Number,
    ) -> Result<Closing, Fault>
        requires { first ≤ last }
        ensures answer { Answers (plain_seen self.old) (plain_seen self.new) result
            (λ log closing. closing ≡ closing_after log (number_key teller first) (number_key teller last)) }
        ensures call { IsCounterCall plain_seen plain_tables plain_reason self.old self.new
            (Close (number_key teller first) (number_key teller last) ∷ []) result }
    {
        self.close(ClosingRow::of_numbers(teller, first, last))
    }

    /// Seals the bank: from now on it decides nothing more, and what it keeps gets its first reply. It answers `Closed`, or
    /// `Already` where it was sealed.
    pub fn seal(&mut self) -> Result<Closing, Fault>
        ensures answer { Answers (plain_seen self.old) (plain_seen self.new) result
            (λ log closing. closing ≡ closing_after log 0 0) }
        ensures call { IsCounterCall plain_seen plain_tables plain_reason self.old self.new (Close 0 0 ∷ []) result }
    {
        self.close(ClosingRow { last: 0, first: 0 })
    }

    // Closes the numbers of a run.
    fn close(&mut self, run: ClosingRow) -> Result<Closing, Fault>
        requires { IsCommand (Close run.first run.last) }
        ensures answer { Answers (plain_seen self.old) (plain_seen self.new) result
            (λ log closing. closing ≡ closing_after log run.first run.last) }
        ensures call { IsCounterCall plain_seen plain_tables plain_reason self.old self.new
            (Close run.first run.last ∷ []) result }
    {
        let closing = closing_for(&self.closings, run.first, run.last);
        let Closing::Closed = closing else {
            return Ok(closing);
        };
        self.closings.reserve(1)?;
        self.add_run(run);
        Ok(Closing::Closed)
    }

    // Adds the numbers of a run, for which there is room.
    fn add_run(&mut self, run: ClosingRow)
        requires room { vec_len self.old.closings < vec_capacity self.old.closings }
        ensures tables { plain_tables self.new ≡ appended_run (plain_tables self.old) run }
    {
        put(&mut self.closings, run);
    }
}

impl Counter for PlainBank {
    ghost use Rattle.std.specs.Prelude.{IsOk, IfOk, IfSome, refl};
    ghost use Rattle.posting_rules.specs.Branches.{IsNextBranch, IsLineAbove};
    ghost use Rattle.posting_rules.specs.believed.Entries.{balance_after};
    ghost use Rattle.posting_rules.specs.believed.Tables.{Tables};
    ghost use Rattle.posting_rules.specs.believed.Counter.{Answers, IsCounterCall};
    ghost use Rattle.posting_rules.specs.Counter.{StaysByTables};
    ghost use Rattle.posting_core.specs.Plain.{plain_reason, plain_seen, plain_spares, plain_tables};

    ghost seen = { plain_seen };

    ghost Contents = { Tables };

    ghost contents = { plain_tables };

    ghost reason = { plain_reason };

    ghost spares = { plain_spares };

    ghost leaves_something = { λ bank _. ∣ (plain_tables bank, refl) ∣₁ };

    ghost spares_itself = { λ bank. tt };

    ghost spares_then = { λ old mid new one two. tt };

    fn submit(
        &mut self,
        moment: Moment,
        bytes: &[u8; REQUEST_BYTES],
    ) -> Result<[u8; REPLY_BYTES], Fault> {
        read_range(moment);
        self.make_room(1)?;
        Ok(self.submit_within_capacity(moment, bytes))
    }

    fn submit_all(
        &mut self,
        moment: Moment,
        records: &[[u8; REQUEST_BYTES]],
    ) -> Result<Vec<[u8; REPLY_BYTES]>, Fault> {
        read_range(moment);
        let mut replies = Vec::new(self.alloc);
        replies.reserve(records.len())?;
        self.make_room(records.len())?;
        self.submit_all_within_capacity(moment, records, &mut replies);
        Ok(replies)
    }

    fn open_branch(
        &mut self,
        branch: Branch,
        count: u32,
        floor: Option<Cents>,
    ) -> Result<Opening, Fault> {
        read_floor(floor);
        let opening = self.opening_of(branch, count, &floor);
        let Opening::Opened = opening else {
            return Ok(opening);
        };
        self.branches.reserve(1)?;
        self.tellers.reserve(TELLERS_PER_BRANCH as usize)?;
        self.accounts.reserve(count as usize)?;
        self.floors.reserve(1)?;
        self.add_branch(branch, count, floor);
        Ok(Opening::Opened)
    }

    // It takes no memory, and always answers.
    fn balance(&mut self, account: Account) -> Result<Option<Cents>, Fault>
        ensures ok { IsOk result }
        ensures answer { Answers (plain_seen self.old) (plain_seen self.new) result
            (λ log balance. balance ≡ balance_after log account) }
        ensures call { IsCounterCall plain_seen plain_tables plain_reason self.old self.new [] result }
        ensures by_tables { OnOk result (StaysByTables (plain_seen self.old) (plain_seen self.new)) }
        ensures stays { plain_tables self.new ≡ plain_tables self.old }
    {
        Ok(balance_at(&self.accounts, account.get()))
    }

    // It takes no memory, and always answers.
    fn next_branch(&mut self, after: u32) -> Result<Option<BranchLine>, Fault>
        ensures ok { IsOk result }
        ensures answer { Answers (plain_seen self.old) (plain_seen self.new) result
            (λ log line. IsNextBranch log after line) }
        ensures within { IfOk result (λ line. IfSome line (IsLineAbove after)) }
        ensures call { IsCounterCall plain_seen plain_tables plain_reason self.old self.new [] result }
        ensures by_tables { OnOk result (StaysByTables (plain_seen self.old) (plain_seen self.new)) }
        ensures stays { plain_tables self.new ≡ plain_tables self.old }
    {
        let Some(row) = next_at(&self.branches, after) else {
            return Ok(None);
        };
        Ok(Some(self.line(row)))
    }
}
