//! The tables under a connection. The function has no clause on what it does, so that no test carries the state
//! of each call.
use sqlite::{Alter, Connection, Error};

pub fn batch<S: Alter>(conn: &mut Connection<S>, sql: &str) -> Result<(), Error> {
    conn.execute_batch(sql)
}
