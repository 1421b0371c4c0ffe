//! The first program of `bank_reports`.
use bank_reports::{audit, write_audit, write_statement};
use bank_store::{Account, Bank};
use sqlite::Alter;
use std::io::Write;
use std::test::Fail;

pub fn first_reports<S: Alter + Drop, W: Write>(
    bank: &mut Bank<S>,
    output: &mut W,
) -> Result<bool, Fail> {
    write_statement(bank, Account::new(1).unwrap(), output)?;
    let found = audit(bank)?;
    write_audit(&found, output)?;
    Ok(found.is_consistent())
}
