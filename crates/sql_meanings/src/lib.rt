//! What SQL statements mean for any table of whole numbers and texts under a whole key, whatever else the
//! database holds. There are definitions and lemmas, and no code. Nothing here knows a bank.
//!
//! A table, and what it means that a database has it with the rows `es`, by rising keys:
//!
//! ```text
//! account : Table
//! account = plain_table (codes "account") (codes "aid") (codes "balance" ∷ [])
//!
//! Holds db account es
//! ```
//!
//! What a statement inside a transaction then finds or leaves, and the lemma that says so:
//!
//! ```text
//! SELECT under a key         find (has_key k) es          ReadRows.reads_key
//! SELECT of the next key     find (is_above k) es         ReadRows.reads_next
//! INSERT                     put e es                     PutRows.puts_row
//! UPDATE under a key         changed change k es          SetRows.sets_row
//! CREATE TABLE               Adds old.now new.now table   Makings.made_by
//! a probe of a table         TellsProbe old new table r   Probing.tells_probe
//! ```
//!
//! Read next: `specs/believed/Entries`, the rows; `specs/believed/Tables`, a table that a database holds; `specs/StatementAnswers`,
//! what each statement answers and why it may fail. The crate `store_rows` is a caller, with a bank's tables.
#![tactic(auto)]
