//! The first program of `walked_rows`.
use arrayvec::ArrayVec;
use sqlite::{Alter, Connection};
use store_rows::TableFault;
use walked_rows::{AHEAD, StoredAccount, WalkedRow};

pub fn first_accounts<S: Alter>(
    conn: &mut Connection<S>,
) -> Result<(i64, Option<i64>), TableFault> {
    let mut rows: ArrayVec<StoredAccount, AHEAD> = ArrayVec::new();
    let rest = StoredAccount::read_some(conn, None, 1, &mut rows)?;
    let mut sum = 0i64;
    for row in rows.as_slice() {
        sum = sum.saturating_add(row.balance);
    }
    Ok((sum, rest))
}
