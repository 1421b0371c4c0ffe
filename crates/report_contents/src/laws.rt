//! What an audit says of the consistency condition, and how the balances of a range agree.
ghost use Rattle.report_contents.specs.Beside.{RowsTellOfTables};
ghost use Rattle.report_contents.specs.Consistency.{TellsOfStored, TellsOfTables};
ghost use Rattle.report_contents.specs.Ranges.{RangesAddUp};

/// The audit of tables says that they are consistent exactly where they are (TPC-B clause 2): of the rows
/// that a file has, and of the tables of a bank. It does nothing: the law is what it ensures.
pub fn audit_tells_consistency()
    ensures stored { TellsOfStored }
    ensures tables { TellsOfTables }
{}

/// The audit of the rows of tables, each request and each posting beside the other of its ordinal, is the
/// audit of the tables. It does nothing: the law is what it ensures.
pub fn rows_tell_of_tables()
    ensures { RowsTellOfTables }
{}

/// The balance before a range of time, and what was posted in it, make the balance at its end. It does nothing:
/// the law is what it ensures.
pub fn ranges_add_up()
    ensures { RangesAddUp }
{}
