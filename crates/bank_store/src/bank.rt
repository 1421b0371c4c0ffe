//! The bank over a connection: its calls, and how a fault brings it down.
ghost use Rattle.posting_rules.specs.declared.fault.Fault.TheVariants as fault;
ghost use Rattle.std.specs.Prelude.{◌≡◌, ◌≢◌, ◌≤◌, ◌≤ℤ◌, [], ◌∷◌, List, length, Err, IfOk, OnOk, IfErr, IfSome};
ghost use Rattle.std.specs.Prelude.{None, false, pos, ◌+◌, ◌++◌, vec_len, vec_capacity};
ghost use Rattle.smallvec.specs.SmallVec.{small_vec_len};
ghost use Rattle.sqlite.specs.State.{Survives};
ghost use Rattle.sqlite.specs.Held.{state};
ghost use Rattle.bank_transactions.specs.Memory.{Remembers};
ghost use Rattle.bank_store.specs.believed.FileTables.{HasFileTables};
ghost use Rattle.message_records.specs.believed.Spelling.{reply_spelling};
ghost use Rattle.posting_rules.specs.Branches.{IsNextBranch, IsLineAbove};
ghost use Rattle.posting_rules.specs.believed.AnyTables.{OpensByTables};
ghost use Rattle.posting_rules.specs.believed.Commands.{Close, Command, Open, Post, opened_with};
ghost use Rattle.posting_rules.specs.believed.Counter.{StandsAt, opening_after};
ghost use Rattle.posting_rules.specs.believed.Entries.{reply, balance_after};
ghost use Rattle.posting_rules.specs.believed.Runs.{posts, replies_to};
ghost use Rattle.posting_rules.specs.believed.Tables.{Tables};

use crate::laws::{floor_law, range_law};
use arrayvec::ArrayVec;
use bank_transactions::{
    Memory, close_numbers, note_settled, open_branch, post_all, post_looked_up, read_balance,
    read_next_branch,
};
use message_records::{
    Account, Branch, Cents, Moment, Number, REPLY_BYTES, REQUEST_BYTES, Teller, decode_request,
    encode_reply,
};
use posting_batch::{Batch, Replies};
use posting_rules::{
    BranchLine, Closing, ClosingRow, Counter, Fault, LAST_BRANCH, MAX_ACCOUNTS, Opening,
    RECORDS_PER_BATCH, malformed_reply,
};
use sqlite::{Alter, Connection, Error};
use std::alloc::Global;
use std::fmt;
use store_rows::{BankTable, TableFault, probe_table};
use walked_rows::{AHEAD, WalkedRow};

// Puts replies after the others, for which there is room.
fn put_replies(room: &mut Vec<[u8; REPLY_BYTES]>, replies: &Replies)
    requires { vec_len room.old + small_vec_len replies.now ≤ vec_capacity room.old }
    ensures { room.new.items ≡ room.old.items ++ replies.now.items }
{
    let _ = room.extend_from_slice(replies);
}

// The reply to the one record.
fn only_reply(replies: &Replies) -> [u8; REPLY_BYTES]
    requires { length replies.now.items ≡ 1 }
    ensures { replies.now.items ≡ result ∷ [] }
{
    replies[0]
}

/// A bank over a connection, with the calls of [`Counter`]. Each call is one transaction, which is committed
/// before the call answers `Ok` (TPC-B clause 2). Between calls no transaction is open. Amounts are whole
/// cents, and moments whole seconds since 1970-01-01T00:00:00Z. Its file defines the tables of a bank, which is compared
/// once.
///
/// # After a fault
///
/// - [`Fault::Memory`], of `submit_all` alone: nothing was tried, nothing has changed, and the bank can be
///   used.
/// - [`Fault::Store`]: the bank is down, and [`Bank::cause`] has the error. The file has all of the call or
///   nothing of it. Release the connection, open the file again, [`adopt`](crate::adopt) the bank and send
///   again what got no reply: what was posted is not posted twice.
/// - [`Fault::Damaged`]: the file has rows that no bank writes, and that break this rule. Nothing has
///   changed, and the bank is down, without a cause.
/// - [`Fault::Down`]: a fault brought the bank down before. Nothing was tried: it is the bank that it was.
///
/// This holds of a disk that returns what was written, as long as nobody else writes the file.
#[derive(Drop)]
pub struct Bank<S: Alter> {
    pub(crate) alloc: Global,
    pub(crate) conn: Connection<S>,
    // What it read or wrote, as long as nobody else has used the connection since.
    pub(crate) memory: Memory,
    // What brought it down, none while it is up.
    fault: Option<TableFault>,
    ghost idle: { conn.in_transaction ≡ false },
    ghost remembers: { ∥ Remembers S.Store conn memory ∥₁ },
    ghost tables: { ∥ HasFileTables S.Store conn ∥₁ },
}

impl<S: Alter> Bank<S> {
    ghost use Rattle.bank_store.specs.Connections.{conn_seen};
    ghost use Rattle.bank_store.specs.Down.{GoesDown};
    ghost use Rattle.bank_store.specs.believed.Seen.{bank_seen, cause_of, connection_of};
    ghost use Rattle.bank_store.specs.Walks.{IsUntouchedIfOpen};
    ghost use Rattle.sqlite.specs.State.{HasCleanDisk};

    // The bank over a connection whose tables were made or checked.
    pub(crate) fn over(alloc: Global, conn: Connection<S>) -> Self
        requires idle { conn.in_transaction ≡ false }
        requires tables { HasFileTables S.Store conn }
        ensures conn { result.conn ≡ conn }
        ensures up { result.fault ≡ None }
        ensures alloc { result.alloc ≡ alloc }
    {
        Bank {
            alloc,
            conn,
            memory: Memory::with_room(alloc),
            fault: None,
        }
    }

    /// Gives the connection back, outside a transaction and with the file as it is. Close it where the bank
    /// is down: [`adopt`](crate::adopt) takes the bank up again over a new one.
    #[must_use]
    pub fn release(self) -> Connection<S>
        ensures same { result ≡ connection_of self }
        ensures idle { result.in_transaction ≡ false }
        ensures stands { (log : List Command) → StandsAt (bank_seen S.Store self) log
            → StandsAt (conn_seen S.Store result) log }
    {
        let Bank {
            alloc: _,
            conn,
            memory: _,
            fault: _,
        } = self;
        conn
    }

    /// The error of `sqlite` that brought the bank down. There is none while the bank is up, and none if
    /// damaged rows brought it down.
    #[must_use]
    pub fn cause(&self) -> Option<Error>
        ensures { result ≡ cause_of self.now }
    {
        match self.fault {
            Some(TableFault::Sqlite(e)) => Some(e),
            _ => None,
        }
    }

    /// Brings the bank down. Before damage is reported, the store is asked for a table once more: if it
    /// answers, it is open and has undone the call, and otherwise the fault is the store's.
    pub(crate) fn go_down(&mut self, fault: TableFault) -> Fault
        ensures down { GoesDown (state S.Store self.old.conn) (state S.Store self.new.conn) fault
            self.new.fault result }
        ensures survives { Survives (state S.Store self.old.conn) (state S.Store self.new.conn) (λ _. ⊥) }
        ensures undone { HasCleanDisk (state S.Store self.new.conn)
            → IsUntouchedIfOpen (state S.Store self.old.conn) (state S.Store self.new.conn) }
    {
        self.memory.forget();
        note_settled(&self.conn);
        let TableFault::Damaged(rule) = fault else {
            self.fault = Some(fault);
            return Fault::Store;
        };
        match probe_table(&mut self.conn, BankTable::Meta) {
            Ok(_) => {
                self.fault = Some(fault);
                Fault::Damaged(rule)
            }
            Err(e) => {
                self.fault = Some(TableFault::Sqlite(e));
                Fault::Store
            }
        }
    }
}

impl<S: Alter> Bank<S> {
    ghost use Rattle.std.specs.Prelude.{◌++◌, filter, if◌then◌else◌, is_some, map, MatchResult};
    ghost use Rattle.sqlite.specs.State.{HasCleanDisk};
    ghost use Rattle.sql_meanings.specs.StatementAnswers.{IsStoreError};
    ghost use Rattle.walked_rows.specs.StepOutcomes.{BreaksFirst};
    ghost use Rattle.walked_rows.specs.Rising.{RisesFrom};
    ghost use Rattle.walked_rows.specs.Rows.{items_after, items_from};
    ghost use Rattle.bank_store.specs.believed.BankSparing.{SparesOtherTables};
    ghost use Rattle.posting_rules.specs.Closings.{closing_after};
    ghost use Rattle.posting_rules.specs.believed.Closings.{run_of, seal, sealed};
    ghost use Rattle.posting_rules.specs.believed.Commands.{number_key};
    ghost use Rattle.posting_rules.specs.believed.Damage.{IsSoundClosing};
    ghost use Rattle.posting_rules.specs.declared.closed_numbers.Closing.TheVariants.{Already, Closed};
    ghost use Rattle.bank_store.specs.believed.Down.{AnswersBy, IsBankCall};
    ghost use Rattle.bank_store.specs.believed.NoneOrAll.{ClosesOnAnyRows, RefusesClosing};
    ghost use Rattle.bank_store.specs.believed.Seen.{connection_of};
    ghost use Rattle.bank_store.specs.Seen.{alloc_of};
    ghost use Rattle.bank_store.specs.Walks.{IsStill, IsUntouchedIfOpen};

    /// Whether a fault brought the bank down. Then each call answers [`Fault::Down`] and tries nothing.
    #[must_use]
    pub fn is_down(&self) -> bool
        ensures { result ≡ is_some self.now.fault }
    {
        self.fault.is_some()
    }

    /// A hook for proofs, with no effect at run time: a bank's file defines the tables of a bank. That was compared as it
    /// was made or taken up, and no call changes a definition.
    pub fn tables_law(&self)
        ensures { HasFileTables S.Store (connection_of self.now) }
    {}

    /// Closes the numbers of a teller from the first to the last: closed books decided them, so that a request under one of
    /// them is refused from now on, unless it is kept here. It closes them all or none. See [`Bank`] for what holds after
    /// each fault.
    pub fn close_numbers(
        &mut self,
        teller: Teller,
        first: Number,
        last: Number,
    ) -> Result<Closing, Fault>
        requires { first ≤ last }
        ensures answer { AnswersBy S.Store self.old self.new result
            (λ log closing. closing ≡ closing_after log (number_key teller first) (number_key teller last)) }
        ensures call { IsBankCall S.Store self.old self.new
            (Close (number_key teller first) (number_key teller last) ∷ []) result }
        ensures frugal { result ≢ Err fault.Memory }
        // Whatever rows the file holds: the row is written where none of its numbers is closed, and nothing else; a crash
        // leaves it or nothing.
        ensures stored { ClosesOnAnyRows S.Store self.old self.new
            (run_of (number_key teller first) (number_key teller last)) result }
        ensures own { IfErr result (RefusesClosing S.Store (run_of (number_key teller first) (number_key teller last))
            self.old self.new) }
        ensures spares { SparesOtherTables S.Store self.old self.new }
    {
        self.close_run(&ClosingRow::of_numbers(teller, first, last))
    }

    /// Seals the books: from now on they decide nothing more, and what they keep gets its first reply. It answers `Closed`,
    /// or `Already` where they were sealed. See [`Bank`] for what holds after each fault.
    pub fn seal(&mut self) -> Result<Closing, Fault>
        ensures answer { AnswersBy S.Store self.old self.new result
            (λ log closing. closing ≡ if sealed log then Already else Closed) }
        ensures call { IsBankCall S.Store self.old self.new (Close 0 0 ∷ []) result }
        ensures frugal { result ≢ Err fault.Memory }
        // Whatever rows the file holds: the row of the seal is written where there is none, and nothing else; a crash
        // leaves it or nothing.
        ensures stored { ClosesOnAnyRows S.Store self.old self.new seal result }
        ensures own { IfErr result (RefusesClosing S.Store seal self.old self.new) }
        ensures spares { SparesOtherTables S.Store self.old self.new }
    {
        self.close_run(&ClosingRow::seal())
    }

    /// Closes the numbers of a run, as [`Bank::close_numbers`] does, or seals the books.
    pub fn close_run(&mut self, row: &ClosingRow) -> Result<Closing, Fault>
        requires { IsSoundClosing row.now }
        ensures answer { AnswersBy S.Store self.old self.new result
            (λ log closing. closing ≡ closing_after log row.now.first row.now.last) }
        ensures call { IsBankCall S.Store self.old self.new (Close row.now.first row.now.last ∷ []) result }
        ensures frugal { result ≢ Err fault.Memory }
        ensures stored { ClosesOnAnyRows S.Store self.old self.new row.now result }
        ensures own { IfErr result (RefusesClosing S.Store row.now self.old self.new) }
        ensures spares { SparesOtherTables S.Store self.old self.new }
    {
        if self.is_down() {
            return Err(Fault::Down);
        }
        // A posting that was answered may have noted that a number is free, or that there is no seal.
        self.memory.forget();
        match close_numbers(&mut self.conn, row) {
            Ok(closing) => Ok(closing),
            Err(fault) => Err(self.go_down(fault)),
        }
    }

    /// The allocator that the bank was made or taken up with.
    #[must_use]
    pub fn alloc(&self) -> Global
        ensures { result ≡ alloc_of self.now }
    {
        self.alloc
    }

    // Reads the rows from a key on, up to `AHEAD` of them, and answers from which key the others follow. A
    // fault of it doesn't bring the bank down.
    pub(crate) fn read_rows<R: WalkedRow>(
        &mut self,
        of: Option<Account>,
        from: i64,
        rows: &mut ArrayVec<R, AHEAD>,
    ) -> Result<Option<i64>, TableFault>
        ensures answers { HasCleanDisk (state S.Store self.new.conn) → (all : List R.WalkedRow.Item)
            → R.WalkedRow.HasItems (state S.Store self.old.conn).now all
            → let given = filter (R.WalkedRow.is_given of) all in MatchResult result
            (λ rest. items_from R.WalkedRow.key from given
            ≡ map R.WalkedRow.item rows.new.items ++ items_after R.WalkedRow.key rest given)
            (BreaksFirst (IsStoreError (state S.Store self.old.conn) (state S.Store self.new.conn))
            R.WalkedRow.Breaks (items_from R.WalkedRow.key from given)) }
        ensures ended { IfOk result (λ rest. rows.new.items ≡ [] → rest ≡ None) }
        ensures rises { IfOk result (λ rest. RisesFrom from
            (map (λ r. R.WalkedRow.key (R.WalkedRow.item r)) rows.new.items) rest) }
        ensures same { HasCleanDisk (state S.Store self.new.conn)
            → OnOk result (IsStill (state S.Store self.old.conn) (state S.Store self.new.conn)) }
        ensures undone { HasCleanDisk (state S.Store self.new.conn)
            → IsUntouchedIfOpen (state S.Store self.old.conn) (state S.Store self.new.conn) }
        ensures up { self.new.fault ≡ self.old.fault }
        ensures survives { Survives (state S.Store self.old.conn) (state S.Store self.new.conn) (λ _. ⊥) }
    {
        self.memory.forget();
        note_settled(&self.conn);
        R::read_some(&mut self.conn, of, from, rows)
    }
}

/// What brought the bank down; what it holds of its file is left out.
impl<S: Alter> fmt::Debug for Bank<S> {
    fn fmt<W: fmt::Write>(&self, f: &mut fmt::Formatter<W>) -> fmt::Result {
        f.debug_struct("Bank")
            .field("fault", &self.fault)
            .finish_non_exhaustive()
    }
}

/// Each call is one transaction. See [`Bank`] for what holds after each fault.
impl<S: Alter + Drop> Counter for Bank<S> {
    ghost use Rattle.std.specs.Prelude.{Ok};
    ghost use Rattle.message_records.specs.believed.Reading.{request_of};
    ghost use Rattle.message_records.specs.believed.Records.{RequestFields};
    ghost use Rattle.message_records.specs.declared.fault.Bad.{Bad};
    ghost use Rattle.posting_rules.specs.believed.Entries.{malformed_reply};
    ghost use Rattle.bank_transactions.specs.believed.Stored.{IsStoredBalance};
    ghost use Rattle.bank_transactions.specs.Stored.{IsStoredNext};
    ghost use Rattle.bank_transactions.specs.believed.Answered.{AnswersAll, AnswersOne, KeepsOpening, KeepsWhole, OpensAll};
    ghost use Rattle.bank_store.specs.believed.Down.{AnswersBy, IsBankCall, OfDamage};
    ghost use Rattle.bank_store.specs.Down.{WasBroken};
    ghost use Rattle.bank_store.specs.believed.Down.{bank_reason};
    ghost use Rattle.bank_store.specs.Leaving.{OnlyReads};
    ghost use Rattle.bank_store.specs.believed.NoneOrAll.{LeavesAll, LeavesNoneOrAll, LeavesOne, OnAnyRows};
    ghost use Rattle.bank_store.specs.believed.NoneOrAll.{RefusesOpening, RefusesRecords};
    ghost use Rattle.bank_store.specs.believed.Seen.{bank_seen, database_of};
    ghost use Rattle.bank_store.specs.believed.BankSparing.{SparesOtherTables};
    ghost use Rattle.bank_store.specs.SparedTables.{some_or_none, spared_itself, spared_then};
    ghost use Rattle.sqlite.specs.Effect.{Database};

    ghost seen = { λ bank. bank_seen S.Store bank };

    ghost Contents = { Database };

    ghost contents = { λ bank. database_of S.Store bank };

    ghost reason = { λ fault old new. bank_reason S.Store fault old new };

    ghost spares = { λ old new. SparesOtherTables S.Store old new };

    // What a crash of the store leaves.
    ghost leaves_something = { λ bank honest. S.Store.survives bank.conn.store honest };

    ghost spares_itself = { λ bank. spared_itself _ _ bank };

    ghost spares_then = { λ old mid new. spared_then _ _ (λ bank. some_or_none bank.fault) old mid new };

    fn submit(
        &mut self,
        moment: Moment,
        bytes: &[u8; REQUEST_BYTES],
    ) -> Result<[u8; REPLY_BYTES], Fault>
        ensures answer { AnswersBy S.Store self.old self.new result
            (λ log out. out ≡ reply_spelling (reply log bytes.now)) }
        ensures call { IsBankCall S.Store self.old self.new (Post moment bytes.now ∷ []) result }
        ensures frugal { result ≢ Err fault.Memory }
        // Whatever rows the file holds: a request that is kept changes nothing, and of one that is new all that is due
        // is written, and nothing else; a crash leaves all of that or nothing.
        ensures stored { OnAnyRows S.Store self.old self.new (λ out. (r : RequestFields) → request_of bytes.now ≡ Ok r
            → AnswersOne (database_of S.Store self.old) (database_of S.Store self.new) moment bytes.now r out)
            (KeepsWhole (database_of S.Store self.old) moment (bytes.now ∷ [])) result }
        // Be the tables of a log, damaged or neither.
        ensures leaves { IfOk result (λ out. LeavesOne S.Store self.old self.new moment bytes.now out) }
        // Bytes that are no request are told so, whatever rows the file holds, and the bank is as it was.
        ensures malformed { ((bank_seen S.Store self.old).is_down → ⊥) → (bad : Bad)
            → request_of bytes.now ≡ Err bad
            → (result ≡ Ok (reply_spelling malformed_reply)) × (self.new ≡ self.old) }
        // A key that is taken is the next ordinal's. Where that ordinal is free, the rows that the file held break the
        // rule, and a crash leaves all of the posting or nothing.
        ensures own { IfErr result (RefusesRecords S.Store moment (bytes.now ∷ []) self.old self.new) }
        ensures spares { SparesOtherTables S.Store self.old self.new }
    {
        range_law(moment);
        if self.is_down() {
            return Err(Fault::Down);
        }
        let Ok(request) = decode_request(bytes) else {
            return Ok(encode_reply(&malformed_reply()));
        };
        let batch = Batch::of_one(self.alloc, request);
        let mut memory = self.memory.take();
        match post_looked_up(&mut self.conn, &mut memory, moment, batch) {
            Ok(replies) => {
                self.memory = memory;
                Ok(only_reply(&replies))
            }
            Err(refused) => Err(self.go_down(refused)),
        }
    }

    // All room is made before the store is asked, so that `Memory` changes nothing. Each row that the records
    // touch is read once, but for new requests, and each that they change is written once. They are committed
    // together or not at all. A batch in which nothing is decided changes no table, and a crash in it leaves
    // nothing else.
    fn submit_all(
        &mut self,
        moment: Moment,
        records: &[[u8; REQUEST_BYTES]],
    ) -> Result<Vec<[u8; REPLY_BYTES]>, Fault>
        requires some { 1 ≤ length records.now }
        requires few { length records.now ≤ RECORDS_PER_BATCH }
        ensures count { IfOk result (λ replies. length replies.items ≡ length records.now) }
        ensures answer { AnswersBy S.Store self.old self.new result
            (λ log replies. replies.items ≡ replies_to log (posts moment records.now)) }
        ensures call { IsBankCall S.Store self.old self.new (posts moment records.now) result }
        ensures none_or_all { LeavesNoneOrAll (bank_seen S.Store self.old) (bank_seen S.Store self.new)
            (posts moment records.now) }
        // Be the tables of a log, damaged or neither. A batch in which no record is decided changes nothing, nor what
        // a crash leaves.
        ensures leaves { IfOk result (λ replies. LeavesAll S.Store self.old self.new moment records.now
            replies.items) }
        // Whatever rows the file holds: records that are all kept change nothing, and of the others all that is due is
        // written, and nothing else; a crash leaves all of that or nothing.
        ensures stored { OnAnyRows S.Store self.old self.new (λ replies. AnswersAll (database_of S.Store self.old)
            (database_of S.Store self.new) moment records.now replies.items)
            (KeepsWhole (database_of S.Store self.old) moment records.now) result }
        // A key that is taken is one of the next ordinals', at most one a record. Where those are free, the rows that
        // the file held break the rule, and a crash leaves all of the batch or nothing.
        ensures own { IfErr result (RefusesRecords S.Store moment records.now self.old self.new) }
        ensures spares { SparesOtherTables S.Store self.old self.new }
    {
        range_law(moment);
        if self.is_down() {
            return Err(Fault::Down);
        }
        let mut replies = Vec::with_capacity(self.alloc, records.len())?;
        let batch = Batch::new(self.alloc, records)?;
        let mut memory = self.memory.take();
        match post_all(&mut self.conn, &mut memory, moment, batch) {
            Ok(given) => {
                self.memory = memory;
                put_replies(&mut replies, &given);
                Ok(replies)
            }
            Err(fault) => Err(self.go_down(fault)),
        }
    }

    fn open_branch(
        &mut self,
        branch: Branch,
        count: u32,
        floor: Option<Cents>,
    ) -> Result<Opening, Fault>
        requires branch { branch ≤ LAST_BRANCH }
        requires some { 1 ≤ count }
        requires few { count ≤ MAX_ACCOUNTS }
        requires floor { IfSome floor (λ z. z ≤ℤ pos 0) }
        ensures answer { AnswersBy S.Store self.old self.new result
            (λ log opening. opening ≡ opening_after log branch (opened_with count floor)) }
        ensures call { IsBankCall S.Store self.old self.new (Open branch (opened_with count floor) ∷ []) result }
        ensures by_tables { IfOk result (OpensByTables (bank_seen S.Store self.old) (bank_seen S.Store self.new) branch
            (opened_with count floor)) }
        ensures frugal { result ≢ Err fault.Memory }
        // Whatever rows the file holds: of a branch that is opened all rows are written, and nothing else; a crash leaves
        // all of them or nothing.
        ensures stored { OnAnyRows S.Store self.old self.new (OpensAll (database_of S.Store self.old)
            (database_of S.Store self.new) branch (opened_with count floor))
            (KeepsOpening (database_of S.Store self.old) branch (opened_with count floor)) result }
        // A key that is taken is the branch's own, one of its tellers', of its accounts' or its floor's. It changes no
        // row that is there, so that none can be missing. Where those keys are free, the rows that the file held break
        // the rule, and a crash leaves all of the branch or nothing.
        ensures own { IfErr result (RefusesOpening S.Store branch (opened_with count floor) self.old self.new) }
        ensures spares { SparesOtherTables S.Store self.old self.new }
    {
        if self.is_down() {
            return Err(Fault::Down);
        }
        range_law(branch);
        floor_law(&floor);
        self.memory.forget();
        match open_branch(&mut self.conn, branch, count, floor) {
            Ok(opening) => Ok(opening),
            Err(fault) => Err(self.go_down(fault)),
        }
    }

    fn balance(&mut self, account: Account) -> Result<Option<Cents>, Fault>
        ensures answer { AnswersBy S.Store self.old self.new result
            (λ log balance. balance ≡ balance_after log account) }
        ensures call { IsBankCall S.Store self.old self.new [] result }
        ensures frugal { result ≢ Err fault.Memory }
        // Whatever rows the file holds.
        ensures stored { IfOk result (λ balance. (bank_seen S.Store self.new).honest
            → IsStoredBalance (database_of S.Store self.old) account balance) }
        ensures reads { OnlyReads S.Store self.old self.new result }
        // It writes nothing, so that the rows which the file held break the rule.
        ensures broken { IfErr result (λ fault. OfDamage fault (WasBroken S.Store self.old self.new)) }
        ensures spares { SparesOtherTables S.Store self.old self.new }
    {
        if self.is_down() {
            return Err(Fault::Down);
        }
        self.memory.forget();
        match read_balance(&mut self.conn, account) {
            Ok(balance) => Ok(balance),
            Err(fault) => Err(self.go_down(fault)),
        }
    }

    fn next_branch(&mut self, after: u32) -> Result<Option<BranchLine>, Fault>
        ensures answer { AnswersBy S.Store self.old self.new result
            (λ log line. IsNextBranch log after line) }
        ensures within { IfOk result (λ line. IfSome line (IsLineAbove after)) }
        ensures call { IsBankCall S.Store self.old self.new [] result }
        ensures frugal { result ≢ Err fault.Memory }
        // Whatever rows the file holds.
        ensures stored { IfOk result (λ line. (bank_seen S.Store self.new).honest
            → IsStoredNext (database_of S.Store self.old) after line) }
        ensures reads { OnlyReads S.Store self.old self.new result }
        ensures broken { IfErr result (λ fault. OfDamage fault (WasBroken S.Store self.old self.new)) }
        ensures spares { SparesOtherTables S.Store self.old self.new }
    {
        if self.is_down() {
            return Err(Fault::Down);
        }
        self.memory.forget();
        match read_next_branch(&mut self.conn, after) {
            Ok(next) => Ok(next),
            Err(fault) => Err(self.go_down(fault)),
        }
    }
}
