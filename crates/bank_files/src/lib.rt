//! The two files of a bank, the database and its log: they are opened, and made where they hold nothing yet.
//!
//! A commit writes each page that it has changed whole, and so a new file has small pages, of
//! [`PAGE_BYTES`]. A file that holds a database keeps the pages that it has. The function `first_file` of
//! `bank_trials`, which its script runs, makes a file with one row in it. The file then has two pages, of
//! 2,048 bytes:
//!
//! ```rust
//! use bank_files::open;
//! use sqlite::{Alter, Connection, Error, FileStore, Unknown};
//! use sqlite_disk::Disk;
//!
//! fn number<S: Alter + Drop>(
//!     conn: &mut Connection<S>,
//!     statements: &str,
//!     query: &str,
//! ) -> Result<i64, Error> {
//!     conn.execute_batch(statements)?;
//!     conn.query_row(query, &[])?.get(0)
//! }
//!
//! pub fn ask<D: Disk + Drop>(
//!     mut conn: Connection<FileStore<D>>,
//!     statements: &str,
//!     query: &str,
//! ) -> Result<i64, Error> {
//!     let found = number(&mut conn, statements, query);
//!     conn.close()?;
//!     found
//! }
//!
//! pub fn first_file(rt: &HostRuntime, path: &str) -> Result<i64, Error> {
//!     match open(rt, path, Unknown) {
//!         Ok(conn) => ask(
//!             conn,
//!             "CREATE TABLE note (title TEXT NOT NULL) STRICT; INSERT INTO note VALUES ('mine')",
//!             "SELECT count(*) FROM note",
//!         ),
//!         Err((error, _)) => Err(error),
//!     }
//! }
//! ```
//!
//! An error is one of the kinds that an open of `sqlite` has, and comes with what is left of the files: a bank that they
//! held is still in them. [`open_over`] is the same for files that are open. Read next: `specs/Opening`, what an open
//! finds, and `specs/Leftover`, what one that failed leaves. The crate `bank_commands` is a caller.
#![tactic(auto)]

mod new_files;
mod open_files;

pub use new_files::PAGE_BYTES;
pub use open_files::{open, open_over};
