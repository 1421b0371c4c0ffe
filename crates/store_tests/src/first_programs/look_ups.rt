//! The first program of the rows that are known.
use bank_transactions::Known;
use std::test::Fail;

#[test]
fn first_look_ups(rt: HostRuntime) -> Result<(), Fail> {
    let mut balances = Known::with_places(rt.alloc(), 4)?;
    balances.put(1, 500_i64);
    balances.put(2, -700);
    assert_eq!(rt; balances.get(1), Some(500));
    balances.put(17, 30);
    assert_eq!(rt; balances.get(1), None);
    assert_eq!(rt; balances.get(17), Some(30));
    balances.forget_key(2);
    assert_eq!(rt; balances.get(2), None);
    balances.forget();
    assert_eq!(rt; balances.get(17), None);
    Ok(())
}
