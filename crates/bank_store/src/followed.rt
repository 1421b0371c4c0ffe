//! A bank in a file whose log another bank can follow, and whose tellers are asked what they hold.
ghost use Rattle.std.specs.Prelude.{◌≡◌, ◌≢◌, [], Err, IfErr, IfOk};
ghost use Rattle.std.specs.Option.{option_map};
ghost use Rattle.posting_rules.specs.declared.fault.Fault.TheVariants as fault;
ghost use Rattle.posting_core.specs.believed.LogEntries.{entries_given};
ghost use Rattle.posting_core.specs.believed.Tills.{teller_after};
ghost use Rattle.bank_store.specs.KeptEntries.{GivesStored};
ghost use Rattle.bank_store.specs.Tills.{IsStoredTill, own_balance};
ghost use Rattle.bank_store.specs.Down.{WasBroken};
ghost use Rattle.bank_store.specs.Leaving.{OnlyReads};
ghost use Rattle.bank_store.specs.believed.Down.{AnswersBy, IsBankCall, OfDamage};
ghost use Rattle.bank_store.specs.believed.Seen.{bank_seen, database_of};
ghost use Rattle.bank_store.specs.believed.BankSparing.{SparesOtherTables};

use crate::bank::Bank;
use crate::entries::read_log;
use bank_transactions::read_teller;
use message_records::{Cents, Teller};
use posting_core::{ENTRIES_PER_ANSWER, ENTRY_BYTES, Followed};
use posting_rules::{Fault, MAX_DECIDED};
use sqlite::Alter;

// Of the balances of a teller and of its branch the teller's.
fn own_balance(balances: Option<(Cents, Cents)>) -> Option<Cents>
    ensures { result ≡ option_map own_balance balances }
{
    balances.map(|(own, _)| own)
}

impl<S: Alter + Drop> Followed for Bank<S> {
    // The rows are looked up by their ordinals, so that an answer costs what it gives. All room is made before the
    // store is asked, so that `Memory` changes nothing.
    fn entries_after(&mut self, after: u64) -> Result<Option<Vec<u8>>, Fault>
        ensures answer { AnswersBy S.Store self.old self.new result
            (λ log given. option_map (λ bytes. bytes.items) given ≡ entries_given log after) }
        ensures call { IsBankCall S.Store self.old self.new [] result }
        ensures spares { SparesOtherTables S.Store self.old self.new }
        // Whatever rows the file holds.
        ensures stored { IfOk result (λ given. (bank_seen S.Store self.new).honest
            → GivesStored (database_of S.Store self.old) after (option_map (λ bytes. bytes.items) given)) }
        ensures reads { OnlyReads S.Store self.old self.new result }
        ensures broken { IfErr result (λ fault. OfDamage fault (WasBroken S.Store self.old self.new)) }
    {
        if self.is_down() {
            return Err(Fault::Down);
        }
        if after > MAX_DECIDED {
            return Ok(None);
        }
        let mut entries = Vec::with_capacity(self.alloc, ENTRIES_PER_ANSWER * ENTRY_BYTES)?;
        self.memory.forget();
        match read_log(&mut self.conn, after, &mut entries) {
            Ok(enough) => {
                if enough {
                    return Ok(Some(entries));
                }
                Ok(None)
            }
            Err(fault) => Err(self.go_down(fault)),
        }
    }

    fn teller_balance(&mut self, teller: Teller) -> Result<Option<Cents>, Fault>
        ensures answer { AnswersBy S.Store self.old self.new result
            (λ log balance. balance ≡ teller_after log teller) }
        ensures call { IsBankCall S.Store self.old self.new [] result }
        ensures frugal { result ≢ Err fault.Memory }
        ensures spares { SparesOtherTables S.Store self.old self.new }
        // Whatever rows the file holds.
        ensures stored { IfOk result (λ balance. (bank_seen S.Store self.new).honest
            → IsStoredTill (database_of S.Store self.old) teller balance) }
        ensures reads { OnlyReads S.Store self.old self.new result }
        ensures broken { IfErr result (λ fault. OfDamage fault (WasBroken S.Store self.old self.new)) }
    {
        if self.is_down() {
            return Err(Fault::Down);
        }
        self.memory.forget();
        match read_teller(&mut self.conn, teller) {
            Ok(balances) => Ok(own_balance(balances)),
            Err(fault) => Err(self.go_down(fault)),
        }
    }
}
