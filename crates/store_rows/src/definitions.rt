//! Whether a file has the tables of a bank as their texts make them.
ghost use Rattle.std.specs.Bool.{Decides};
ghost use Rattle.std.specs.List.{AllByRecursion};
ghost use Rattle.std.specs.Option.{option_copied};
ghost use Rattle.std.specs.Prelude.{◌≡◌, ◌∷◌, [], Some, false, map, pos, slice_get, true};
ghost use Rattle.sqlite.specs.Collation.TheVariants.{Binary as Plainly};
ghost use Rattle.sqlite.specs.Held.{state};
ghost use Rattle.sqlite.specs.declared.types.Value.TheVariants.{Int};
ghost use Rattle.sqlite_schema.specs.Code.{term_in};
ghost use Rattle.sqlite_schema.specs.declared.code.Op.TheVariants.{Column as Place, Literal as Constant};
ghost use Rattle.sqlite_sql.specs.declared.ops.BinaryOp.TheVariants.{Compare};
ghost use Rattle.sqlite_sql.specs.declared.ops.CompareOp.TheVariants.{Eq};
ghost use Rattle.sqlite_value.specs.Keys.{plain};
ghost use Rattle.posting_rules.specs.declared.open_fault.BankTable.TheVariants.{Meta};
ghost use Rattle.sql_meanings.specs.believed.Plain.{strict_column};
ghost use Rattle.sql_meanings.specs.believed.Tables.{Defines, placed_at, table_of};
ghost use Rattle.store_rows.specs.Definitions.{TellsOther, columns_of, key_is_one, made};

use posting_rules::BankTable;
use sqlite::{Alter, Connection};
use sqlite_items::Items;
use sqlite_schema::code::{Op, Terms};
use sqlite_schema::schema::{Column, Kind, Schema, Table};
use sqlite_sql::ops::{BinaryOp, CompareOp};
use sqlite_value::keys::{Collation, Order};
use sqlite_value::value::Value;

// What the text of a table names: its key, and after it columns of one kind that are NOT NULL.
#[derive(Clone, Copy)]
pub(crate) struct Made {
    name: &'static str,
    key: &'static str,
    others: &'static [&'static str],
    kind: Kind,
}

const META: Made = Made {
    name: "meta",
    key: "id",
    others: &["version", "decided"],
    kind: Kind::Integer,
};

const BRANCH: Made = Made {
    name: "branch",
    key: "bid",
    others: &["accounts", "balance"],
    kind: Kind::Integer,
};

const TELLER: Made = Made {
    name: "teller",
    key: "tid",
    others: &["balance"],
    kind: Kind::Integer,
};

const ACCOUNT: Made = Made {
    name: "account",
    key: "aid",
    others: &["balance"],
    kind: Kind::Integer,
};

const HISTORY: Made = Made {
    name: "history",
    key: "ordinal",
    others: &["aid", "tid", "bid", "delta", "moment"],
    kind: Kind::Integer,
};

const REQUEST: Made = Made {
    name: "request",
    key: "ordinal",
    others: &["tid", "number", "aid", "bid", "delta", "outcome", "balance"],
    kind: Kind::Integer,
};

const FLOOR: Made = Made {
    name: "branch_floor",
    key: "bid",
    others: &["lowest"],
    kind: Kind::Integer,
};

const REFERENCE: Made = Made {
    name: "request_reference",
    key: "ordinal",
    others: &["reference"],
    kind: Kind::Text,
};

const CLOSING: Made = Made {
    name: "closing",
    key: "last",
    others: &["first"],
    kind: Kind::Integer,
};

fn made_of(table: BankTable) -> Made
    ensures name { result.name.now ≡ (made table).name }
    ensures columns { columns_of result ≡ (made table).columns }
{
    match table {
        BankTable::Meta => META,
        BankTable::Branch => BRANCH,
        BankTable::Teller => TELLER,
        BankTable::Account => ACCOUNT,
        BankTable::History => HISTORY,
        BankTable::Request => REQUEST,
        BankTable::Floor => FLOOR,
        BankTable::Reference => REFERENCE,
        BankTable::Closing => CLOSING,
    }
}

fn is_column(it: &Column, name: &str, kind: Kind, not_null: bool) -> bool
    ensures { Decides result (it.now ≡ strict_column kind not_null name.now) }
{
    it.name.as_slice() == name.as_bytes()
        && it.kind == kind
        && it.is_strict
        && it.not_null == not_null
        && matches!(it.default, Value::Null)
        && it.collation == Collation::Binary
}

// Whether these are columns of one kind that are NOT NULL, with these names.
fn are_columns(columns: &[Column], names: &[&str], kind: Kind) -> bool
    ensures { Decides result (columns.now ≡ map (λ name. strict_column kind true name.now) names.now) }
{
    match (columns, names) {
        ([], []) => true,
        ([column, columns @ ..], [name, names @ ..]) => {
            is_column(column, name, kind, true) && are_columns(columns, names, kind)
        }
        _ => false,
    }
}

fn is_key_at(ops: &[Op], at: usize) -> bool
    ensures { Decides result (slice_get ops.now at ≡ Some (Place 1 0)) }
{
    matches!(ops.get(at), Some(Op::Column(1, 0)))
}

fn is_one_at(ops: &[Op], at: usize) -> bool
    ensures { Decides result (slice_get ops.now at ≡ Some (Constant (Int (pos 1)))) }
{
    matches!(ops.get(at), Some(Op::Literal(Value::Int(1))))
}

// Whether these are the parts of the term that the key is 1.
fn are_parts(ops: &[Op], op: BinaryOp, left: usize, right: usize) -> bool
    ensures { Decides result ((op ≡ Compare Eq Plainly) × (slice_get ops.now left ≡ Some (Place 1 0))
        × (slice_get ops.now right ≡ Some (Constant (Int (pos 1))))) }
{
    op == BinaryOp::Compare(CompareOp::Eq, Collation::Binary)
        && is_key_at(ops, left)
        && is_one_at(ops, right)
}

// Whether that is the term at a place.
fn is_id(ops: &[Op], root: usize) -> bool
    ensures { Decides result (term_in ops.now root ≡ key_is_one) }
{
    match ops.get(root) {
        Some(Op::Binary(op, left, right)) => are_parts(ops, *op, *left, *right),
        _ => false,
    }
}

// Whether it is the only CHECK.
fn is_only_id(checks: &Terms) -> bool
    ensures { Decides result (checks.now ≡ key_is_one ∷ []) }
{
    let [root] = checks.roots.as_slice() else {
        return false;
    };
    is_id(checks.nodes.as_slice(), *root)
}

// Whether the only UNIQUE is that of a teller and a number.
fn is_teller_number(uniques: &[Items<usize>], orders: &[Order]) -> bool
    ensures { Decides result ((uniques.now ≡ (2 ∷ 3 ∷ []) ∷ []) × (orders.now ≡ plain ∷ [])) }
{
    let [key] = uniques else {
        return false;
    };
    let [order] = orders else {
        return false;
    };
    matches!(key.as_slice(), [2, 3]) && order.digits == 0
}

fn has_no_checks(checks: &Terms) -> bool
    ensures { Decides result (checks.now ≡ []) }
{
    checks.roots.is_empty()
}

// Whether its CHECKs and UNIQUEs are those of the table.
fn has_rules(it: &Table, table: BankTable) -> bool
    ensures { Decides result ((it.now.checks ≡ (made table).checks) × (it.now.uniques ≡ (made table).uniques)
        × (it.now.orders ≡ (made table).orders)) }
{
    let uniques = it.uniques.as_slice();
    let orders = it.orders.as_slice();
    match table {
        BankTable::Meta => is_only_id(&it.checks) && uniques.is_empty() && orders.is_empty(),
        BankTable::Request => has_no_checks(&it.checks) && is_teller_number(uniques, orders),
        _ => has_no_checks(&it.checks) && uniques.is_empty() && orders.is_empty(),
    }
}

// Whether its first column is its key, by which its rows are stored.
fn is_keyed(it: &Table) -> bool
    ensures { Decides result ((it.now.key ≡ Some 0) × (it.now.primary ≡ 0 ∷ [])) }
{
    it.key == Some(0) && matches!(it.primary.as_slice(), [0])
}

// Whether it has no foreign key, no default that is computed, and doesn't count its rows.
fn has_no_more(it: &Table) -> bool
    ensures { Decides result ((it.now.references ≡ []) × (it.now.computed ≡ [])
        × (it.now.stamps ≡ record { places = []; terms = []; formats = [] }) × (it.now.is_counted ≡ false)) }
{
    it.references.is_empty()
        && it.computed.is_empty()
        && it.stamps.places.is_empty()
        && has_no_checks(&it.stamps.terms)
        && it.stamps.formats.is_empty()
        && !it.is_counted
}

// Whether these are a key and the columns after it.
fn has_columns(columns: &[Column], made: &Made) -> bool
    ensures { Decides result (columns.now ≡ columns_of made.now) }
{
    let [key, others @ ..] = columns else {
        return false;
    };
    is_column(key, made.key, Kind::Integer, false) && are_columns(others, made.others, made.kind)
}

// Whether it has the name and the columns of the table.
fn is_laid_out(it: &Table, table: BankTable) -> bool
    ensures { Decides result ((it.now.name ≡ (made table).name) × (it.now.columns ≡ (made table).columns)) }
{
    let made = made_of(table);
    it.name.as_slice() == made.name.as_bytes() && has_columns(it.columns.as_slice(), &made)
}

// Whether it is the table that its text makes, wherever its rows are.
fn is_made(it: &Table, table: BankTable) -> bool
    ensures { Decides result (it.now ≡ placed_at (made table) it.now.tree) }
{
    is_laid_out(it, table) && is_keyed(it) && has_rules(it, table) && has_no_more(it)
}

// Whether each table in this tree is the one that the text makes.
fn are_made(tables: &[Table], tree: u32, table: BankTable) -> bool
    ensures { Decides result (AllByRecursion (λ t. t.tree ≡ tree → t ≡ placed_at (made table) tree) tables.now) }
{
    for it in tables {
        if it.tree == tree && !is_made(it, table) {
            return false;
        }
    }
    true
}

// The table that the name finds.
fn find_table<'a>(schema: &'a Schema, name: &str) -> Option<&'a Table>
    ensures { option_copied result ≡ table_of schema.now name.now }
{
    match schema.table_named(name.as_bytes()) {
        Some(at) => schema.tables.get(at),
        None => None,
    }
}

// Whether the schema has the table as its text makes it.
fn is_as_made(schema: &Schema, table: BankTable) -> bool
    ensures { Decides result (Defines schema.now (made table)) }
{
    let Some(found) = find_table(schema, made_of(table).name) else {
        return false;
    };
    // The one that was found is among them.
    are_made(schema.tables.as_slice(), found.tree, table)
}

// The first of these tables that the schema doesn't have as its text makes it.
fn first_other(schema: &Schema, tables: &[BankTable]) -> Option<BankTable>
    ensures { TellsOther schema.now tables.now result }
{
    for table in tables {
        if !is_as_made(schema, *table) {
            return Some(*table);
        }
    }
    None
}

/// The first of `meta` and these other tables of a bank that the connection's file defines otherwise than
/// [`create`](crate::create) makes it, none where it defines each so. A table is the same where its name, its columns
/// and its rules are, whatever indexes it has beside those of its rules; a table with a trigger isn't.
pub fn other_table<S: Alter>(conn: &Connection<S>, others: &[BankTable]) -> Option<BankTable>
    ensures { TellsOther (state S.Store conn.now).now.schema (Meta ∷ others.now) result }
{
    let schema = conn.schema();
    if !is_as_made(schema, BankTable::Meta) {
        return Some(BankTable::Meta);
    }
    first_other(schema, others)
}
