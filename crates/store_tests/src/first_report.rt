//! The first program of `report_contents`: its page shows all of this file but the head.
use message_records::Whole;
use report_contents::{BranchSums, OrdinalSums, Sum, TellerSums, audit_of_sums, write_audit};
use std::test::Fail;
use walked_rows::StoredTeller;

#[test]
fn first_report(rt: HostRuntime) -> Result<(), Fail> {
    let mut tellers = TellerSums::new(rt.alloc())?;
    tellers.add(StoredTeller {
        teller: Whole::new(1).unwrap(),
        balance: 400,
    });
    let branches = BranchSums::new(rt.alloc())?;
    let accounts = Sum::zero().plus(500);
    let audit = audit_of_sums(&tellers, branches, accounts, OrdinalSums::none());
    assert_eq!(rt; (audit.teller_sum, audit.account_sum), (400, 500));
    let mut text: Vec<u8> = Vec::new(rt.alloc());
    write_audit(&audit, &mut text)?;
    assert!(rt; text.ends_with(b"INCONSISTENT\n"));
    Ok(())
}
