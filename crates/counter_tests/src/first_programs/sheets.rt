//! The first program of `posting_sheets`.
use posting_sheets::encode_sheet;
use std::test::Fail;

#[test]
fn first_sheet(rt: HostRuntime) -> Result<(), Fail> {
    let mut sheet = b"account,teller,number,delta\n1,1,1,500\n".as_slice();
    let mut records: Vec<u8> = Vec::new(rt.alloc());
    assert_eq!(rt; encode_sheet(rt.alloc(), &mut sheet, &mut records)?, 1);
    let text = b"DC01000000000001000000010000010000000001+0000000500"; // and 49 spaces
    assert!(rt; records.starts_with(text));
    Ok(())
}
