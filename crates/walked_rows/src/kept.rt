//! The kept requests: the rows of `request`, each with the posting and the reference of its ordinal.
ghost use Rattle.std.specs.Prelude.{◌≡◌, ◌++◌, [], List, map, None, IfErr, IfOk, MatchResult};
ghost use Rattle.sqlite.specs.State.{HasCleanDisk};
ghost use Rattle.sqlite.specs.Held.{state};
ghost use Rattle.sql_meanings.specs.StatementAnswers.{IsStoreError};
ghost use Rattle.walked_rows.specs.Causes.{HasItsCause};
ghost use Rattle.walked_rows.specs.KeptRows.{BreaksKept, HoldsKept, KeptItem, kept_item, kept_key};
ghost use Rattle.walked_rows.specs.Leaving.{OnlyReads};
ghost use Rattle.walked_rows.specs.Rising.{RisesFrom};
ghost use Rattle.walked_rows.specs.Rows.{entry_key, items_after, items_from};
ghost use Rattle.walked_rows.specs.StepOutcomes.{BreaksFirst};

use crate::ahead::AHEAD;
use crate::joined::{Joined, fill_joined};
use crate::postings::StoredPosting;
use crate::referred::{Referred, refer_each};
use crate::requests::StoredRequest;
use crate::walked::WalkedRow;
use arrayvec::ArrayVec;
use message_records::{Account, Reference};
use sqlite::{Alter, Connection};
use store_rows::TableFault;

/// A row of `request`, with the posting of its ordinal, if there is one, and the reference, if it has one.
#[derive(Clone, Copy)]
pub struct KeptRequest {
    pub request: StoredRequest,
    pub posting: Option<StoredPosting>,
    pub reference: Option<Reference>,
}

impl Default for KeptRequest {
    fn default() -> Self {
        KeptRequest {
            request: StoredRequest::default(),
            posting: None,
            reference: None,
        }
    }
}

impl Referred<Joined<StoredRequest, StoredPosting>> for KeptRequest {
    ghost use Rattle.std.proofs.Common.{inr, refl};
    ghost use Rattle.walked_rows.specs.KeptRows.{KeptItem, kept_item};
    ghost use Rattle.walked_rows.specs.Pairs.{Pair};
    ghost use Rattle.walked_rows.specs.Referring.{kept_joined};
    ghost use Rattle.walked_rows.specs.Stored.{asked_pair, request_entry};

    ghost Own = { Pair };

    ghost Item = { KeptItem };

    ghost own = { asked_pair };

    ghost item = { kept_item };

    ghost entry = { λ p. p.entry };

    ghost ordinal_of = { λ row. row.stored.ordinal };

    ghost joined = { kept_joined };

    ghost key = { λ k. entry_key (request_entry k.request) };

    ghost Breaks = { BreaksKept };

    ghost keyed = { λ row. refl };

    ghost breaks = { λ rule p reference ordinal broke. inr (ordinal, broke) };

    fn ordinal(row: &Joined<StoredRequest, StoredPosting>) -> u64 {
        row.stored.ordinal.get()
    }

    fn referred(
        row: &Joined<StoredRequest, StoredPosting>,
        reference: Option<Reference>,
    ) -> KeptRequest {
        KeptRequest {
            request: row.stored,
            posting: row.beside,
            reference,
        }
    }
}

/// Puts the kept requests with the least ordinals from one on in place of those in `rows`, as [`WalkedRow::read_some`]
/// does, and returns the ordinal from which on the others follow. An error of `sqlite` is one with which a call of it
/// failed, whatever the file holds.
pub fn read_kept<S: Alter>(
    conn: &mut Connection<S>,
    from: i64,
    rows: &mut ArrayVec<KeptRequest, AHEAD>,
) -> Result<Option<i64>, TableFault>
    ensures answers { HasCleanDisk (state S.Store conn.new) → (all : List KeptItem)
        → HoldsKept (state S.Store conn.old).now all
        → MatchResult result
        (λ rest. items_from kept_key from all ≡ map kept_item rows.new.items ++ items_after kept_key rest all)
        (BreaksFirst (IsStoreError (state S.Store conn.old) (state S.Store conn.new)) BreaksKept
        (items_from kept_key from all)) }
    ensures ended { IfOk result (λ rest. rows.new.items ≡ [] → rest ≡ None) }
    ensures rises { IfOk result (λ rest. RisesFrom from (map (λ r. kept_key (kept_item r)) rows.new.items) rest) }
    ensures reads { OnlyReads S.Store conn.old conn.new result }
    ensures cause { HasCleanDisk (state S.Store conn.new)
        → IfErr result (HasItsCause S.Store conn.old conn.new) }
{
    let mut own: ArrayVec<StoredRequest, AHEAD> = ArrayVec::new();
    let mut beside: ArrayVec<StoredPosting, AHEAD> = ArrayVec::new();
    let mut joined: ArrayVec<Joined<StoredRequest, StoredPosting>, AHEAD> = ArrayVec::new();
    match fill_joined(conn, None, from, &mut own, &mut beside, &mut joined) {
        Ok(rest) => refer_each(conn, joined.as_slice(), rest, from, rows),
        Err(fault) => Err(fault),
    }
}

impl WalkedRow for KeptRequest {
    ghost use Rattle.std.specs.Prelude.{refl, true};
    ghost use Rattle.walked_rows.specs.KeptKeys.{kept_have_keys};
    ghost use Rattle.walked_rows.specs.KeptRows.{HasKept, KeptItem, kept_item, kept_key};

    ghost Item = { KeptItem };

    ghost item = { kept_item };

    ghost key = { kept_key };

    ghost Breaks = { BreaksKept };

    ghost is_given = { λ of k. true };

    ghost HasItems = { HasKept };

    ghost have_keys = { kept_have_keys };

    ghost all_given = { λ k. refl };

    fn read_some<S: Alter>(
        conn: &mut Connection<S>,
        _of: Option<Account>,
        from: i64,
        rows: &mut ArrayVec<Self, AHEAD>,
    ) -> Result<Option<i64>, TableFault> {
        read_kept(conn, from, rows)
    }
}
