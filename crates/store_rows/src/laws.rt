//! What the trees of a store show, and which tables a bank has.
ghost use Rattle.std.specs.Prelude.{◌≡◌, IsTrue, Ok, map};
ghost use Rattle.sqlite.specs.Compile.{table_defined_by};
ghost use Rattle.sqlite.specs.Tree.{Trees};
ghost use Rattle.sqlite.specs.Held.{state};
ghost use Rattle.posting_rules.specs.believed.Tables.{Tables};
ghost use Rattle.store_rows.specs.believed.BankTables.{bank_tables};
ghost use Rattle.store_rows.specs.believed.View.{Shows, ShowsTrees};
ghost use Rattle.store_rows.specs.declared.texts.TheConstants.{MAKE_TABLES};

use sqlite::{Alter, Connection};

/// A connection shows what its trees show, and trees show one bank at most: so who opens what a crash left
/// finds it.
pub fn trees_show_law<S: Alter>(conn: &Connection<S>)
    ensures leaves { (tables : Tables) → Shows (state S.Store conn.now).now tables
        → ShowsTrees (state S.Store conn.now).now.trees tables }
    ensures finds { IsTrue (state S.Store conn.now).is_open → (tables : Tables)
        → ShowsTrees (state S.Store conn.now).now.trees tables → Shows (state S.Store conn.now).now tables }
    ensures once { (trees : Trees) → (a b : Tables) → ShowsTrees trees a → ShowsTrees trees b → a ≡ b }
{
    // What a schema says of its connection is what this law rests on, so it is asked for.
    let _schema = conn.schema();
}

/// The tables of a bank are those that the texts in [`MAKE_TABLES`](crate::MAKE_TABLES) define, each in its place. Who
/// reads the texts knows the tables.
pub fn tables_law()
    ensures { map (λ text. table_defined_by text.now) MAKE_TABLES.now ≡ map Ok bank_tables }
{}
