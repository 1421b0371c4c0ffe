//! The tables under a connection, by SQL. The functions have no clause on what they do, so that no caller
//! carries the state of each call.
use crate::sums::{Sums, number, sums_of};
use sqlite::{Alter, Connection, Error};

/// What the tables are asked.
#[derive(Clone, Copy)]
pub enum Query {
    /// Runs statements.
    Batch,
    /// Finds a number.
    Number,
    /// Adds up each table, for a later look to be compared with.
    Look,
    /// Adds up each table, to be compared with the last look.
    Same,
}

/// A sum over each table, and sums of what those leave out.
#[derive(Clone, Copy, PartialEq, Eq)]
pub struct Look {
    sums: Sums,
    version: i64,
    moments: i64,
}

/// What a query found.
#[derive(Clone, Copy)]
pub enum QueryAnswer {
    Nothing,
    Number(i64),
    Looked(Look),
    Compared(Look),
}

fn look_at<S: Alter>(conn: &mut Connection<S>) -> Result<Look, Error> {
    Ok(Look {
        sums: sums_of(conn)?,
        version: number(conn, "SELECT coalesce(sum(version), 0) FROM meta")?,
        moments: number(
            conn,
            "SELECT coalesce(sum(ordinal * moment), 0) FROM history",
        )?,
    })
}

/// Asks the tables, by this text where the query has one.
pub fn run_query<S: Alter>(
    conn: &mut Connection<S>,
    query: Query,
    sql: &str,
) -> Result<QueryAnswer, Error> {
    match query {
        Query::Batch => {
            conn.execute_batch(sql)?;
            Ok(QueryAnswer::Nothing)
        }
        Query::Number => Ok(QueryAnswer::Number(number(conn, sql)?)),
        Query::Look => Ok(QueryAnswer::Looked(look_at(conn)?)),
        Query::Same => Ok(QueryAnswer::Compared(look_at(conn)?)),
    }
}
