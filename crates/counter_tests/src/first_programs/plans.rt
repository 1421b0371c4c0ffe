//! The first program of `branch_loader`.
use branch_loader::{load, read_plan};
use posting_core::PlainBank;
use std::test::Fail;

#[test]
fn first_plan(rt: HostRuntime) -> Result<(), Fail> {
    let mut source = b"branch,accounts\n1,3\n2,2\n".as_slice();
    let plan = read_plan(rt.alloc(), &mut source)?;
    let mut bank = PlainBank::new(rt.alloc());
    let loaded = load(&plan, &mut bank)?;
    assert_eq!(rt; (loaded.opened, loaded.already), (2, 0));
    let again = load(&plan, &mut bank)?;
    assert_eq!(rt; (again.opened, again.already), (0, 2));
    Ok(())
}
