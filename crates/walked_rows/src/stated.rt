//! The rows of `history`, each with the reference of its request.
ghost use Rattle.walked_rows.specs.Rows.{entry_key};
ghost use Rattle.walked_rows.specs.Stored.{BreaksStated, posting_entry, stated_pair};

use crate::ahead::{AHEAD, read_ahead};
use crate::postings::StoredPosting;
use crate::referred::{Referred, refer_each};
use crate::walked::WalkedRow;
use arrayvec::ArrayVec;
use message_records::{Account, Reference};
use sqlite::{Alter, Connection};
use store_rows::TableFault;

/// A row of `history`, with the reference of its request, if it has one.
#[derive(Clone, Copy)]
pub struct StatedPosting {
    pub posting: StoredPosting,
    pub reference: Option<Reference>,
}

impl Default for StatedPosting {
    fn default() -> Self {
        StatedPosting {
            posting: StoredPosting::default(),
            reference: None,
        }
    }
}

impl Referred<StoredPosting> for StatedPosting {
    ghost use Rattle.std.proofs.Common.{inr, refl};
    ghost use Rattle.sql_meanings.specs.believed.Entries.{Entry};
    ghost use Rattle.walked_rows.specs.Pairs.{Pair};
    ghost use Rattle.walked_rows.specs.Referring.{pair_beside};

    ghost Own = { Entry };

    ghost Item = { Pair };

    ghost own = { posting_entry };

    ghost item = { stated_pair };

    ghost entry = { λ e. e };

    ghost ordinal_of = { λ row. row.ordinal };

    ghost joined = { pair_beside };

    ghost key = { λ s. entry_key (posting_entry s.posting) };

    ghost Breaks = { BreaksStated };

    ghost keyed = { λ row. refl };

    ghost breaks = { λ rule e reference ordinal broke. inr broke };

    fn ordinal(row: &StoredPosting) -> u64 {
        row.ordinal.get()
    }

    fn referred(row: &StoredPosting, reference: Option<Reference>) -> StatedPosting {
        StatedPosting {
            posting: *row,
            reference,
        }
    }
}

impl WalkedRow for StatedPosting {
    ghost use Rattle.store_rows.specs.believed.BankTables.{history as history_table};
    ghost use Rattle.store_rows.specs.believed.BankTables.{reference as reference_table};
    ghost use Rattle.walked_rows.specs.PairKeys.{pairs_have_keys};
    ghost use Rattle.walked_rows.specs.Pairs.{HasPairs, Pair, pair_key};
    ghost use Rattle.walked_rows.specs.Stored.{is_stated_of};
    ghost use Rattle.std.specs.Prelude.{refl};

    ghost Item = { Pair };

    ghost item = { stated_pair };

    ghost key = { pair_key };

    ghost Breaks = { BreaksStated };

    ghost is_given = { is_stated_of };

    ghost HasItems = { λ db pairs. HasPairs db history_table reference_table pairs };

    ghost have_keys = { λ db pairs has. pairs_have_keys db history_table reference_table pairs has };

    ghost all_given = { λ p. refl };

    fn read_some<S: Alter>(
        conn: &mut Connection<S>,
        of: Option<Account>,
        from: i64,
        rows: &mut ArrayVec<Self, AHEAD>,
    ) -> Result<Option<i64>, TableFault> {
        let mut own: ArrayVec<StoredPosting, AHEAD> = ArrayVec::new();
        match read_ahead::<S, StoredPosting>(conn, of, from, &mut own) {
            Ok(rest) => refer_each(conn, own.as_slice(), rest, from, rows),
            Err(fault) => Err(fault),
        }
    }
}
