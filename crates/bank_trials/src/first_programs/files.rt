//! The first program of `bank_files`.
use bank_files::open;
use sqlite::{Alter, Connection, Error, FileStore, Unknown};
use sqlite_disk::Disk;

fn number<S: Alter + Drop>(
    conn: &mut Connection<S>,
    statements: &str,
    query: &str,
) -> Result<i64, Error> {
    conn.execute_batch(statements)?;
    conn.query_row(query, &[])?.get(0)
}

pub fn ask<D: Disk + Drop>(
    mut conn: Connection<FileStore<D>>,
    statements: &str,
    query: &str,
) -> Result<i64, Error> {
    let found = number(&mut conn, statements, query);
    conn.close()?;
    found
}

pub fn first_file(rt: &HostRuntime, path: &str) -> Result<i64, Error> {
    match open(rt, path, Unknown) {
        Ok(conn) => ask(
            conn,
            "CREATE TABLE note (title TEXT NOT NULL) STRICT; INSERT INTO note VALUES ('mine')",
            "SELECT count(*) FROM note",
        ),
        Err((error, _)) => Err(error),
    }
}
