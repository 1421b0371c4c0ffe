//! Which of a bank's tables are there.
ghost use Rattle.std.specs.Prelude.{◌≡◌, ◌∷◌, IfErr, false, map};
ghost use Rattle.sqlite.specs.State.{HasCleanDisk};
ghost use Rattle.sqlite.specs.Held.{state};
ghost use Rattle.posting_rules.specs.declared.open_fault.BankTable.TheVariants.{Meta};
ghost use Rattle.store_rows.specs.Probes.{all_probes, probe_of};
ghost use Rattle.bank_store.specs.StoreFaults.{LooksIn};
ghost use Rattle.bank_store.specs.TablePresence.{ChecksTables, joined, presence_of, TellsPresence};

use bank_transactions::note_settled;
use posting_rules::OpenFault;
use sqlite::{Alter, Connection};
use store_rows::{AFTER_META, BankTable, other_table, probe_table};

/// How many of some tables are there.
#[derive(Clone, Copy)]
pub(crate) enum Presence {
    Absent,
    Partial,
    Whole,
}

impl Presence {
    fn of(is_there: bool) -> Presence
        ensures { result ≡ presence_of is_there }
    {
        if is_there {
            Presence::Whole
        } else {
            Presence::Absent
        }
    }

    fn and(self, other: Presence) -> Presence
        ensures { result ≡ joined self other }
    {
        match (self, other) {
            (Presence::Absent, Presence::Absent) => Presence::Absent,
            (Presence::Whole, Presence::Whole) => Presence::Whole,
            _ => Presence::Partial,
        }
    }
}

/// How many there are of a table and of others.
pub(crate) fn count_tables<S: Alter>(
    conn: &mut Connection<S>,
    first: BankTable,
    others: &[BankTable],
) -> Result<Presence, OpenFault>
    requires { conn.old.in_transaction ≡ false }
    ensures answers { HasCleanDisk (state S.Store conn.new) → TellsPresence (state S.Store conn.old)
        (state S.Store conn.new) (map probe_of (first ∷ others.now)) result }
    ensures fault { IfErr result (λ fault. fault ≡ OpenFault.Store) }
    ensures looks { LooksIn S.Store conn.old conn.new result }
{
    note_settled(conn);
    let Ok(is_there) = probe_table(conn, first) else {
        return Err(OpenFault::Store);
    };
    let mut there = Presence::of(is_there);
    for table in others {
        let Ok(is_there) = probe_table(conn, *table) else {
            return Err(OpenFault::Store);
        };
        there = there.and(Presence::of(is_there));
    }
    Ok(there)
}

/// Whether `meta` and others of a bank's tables are defined as a bank's are made.
pub(crate) fn check_tables<S: Alter>(
    conn: &Connection<S>,
    others: &[BankTable],
) -> Result<(), OpenFault>
    ensures { ChecksTables (state S.Store conn.now).now.schema (Meta ∷ others.now) result }
{
    match other_table(conn, others) {
        Some(table) => Err(OpenFault::OtherTable(table)),
        None => Ok(()),
    }
}

/// How many of a bank's tables are there.
pub(crate) fn tables_there<S: Alter>(conn: &mut Connection<S>) -> Result<Presence, OpenFault>
    requires { conn.old.in_transaction ≡ false }
    ensures answers { HasCleanDisk (state S.Store conn.new)
        → TellsPresence (state S.Store conn.old) (state S.Store conn.new) all_probes result }
    ensures fault { IfErr result (λ fault. fault ≡ OpenFault.Store) }
    ensures looks { LooksIn S.Store conn.old conn.new result }
{
    count_tables(conn, BankTable::Meta, AFTER_META)
}
