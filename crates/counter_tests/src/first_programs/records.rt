//! The first program of `message_records`.
use message_records::{
    Account, Bad, Branch, Cents, Number, Request, Teller, decode_request, encode_request,
};
use std::test::Fail;

#[test]
fn first_record(rt: HostRuntime) -> Result<(), Fail> {
    let account = Account::new(1).unwrap();
    let teller = Teller::new(1).unwrap();
    let branch = Branch::new(1).unwrap();
    let number = Number::new(1).unwrap();
    let delta = Cents::new(500).unwrap();
    let request = Request::new(account, teller, branch, number, delta, None).unwrap();
    let mut bytes = encode_request(&request);
    let text = b"DC01000000000001000000010000010000000001+0000000500"; // and 49 spaces
    assert!(rt; bytes.starts_with(text));
    assert_eq!(rt; decode_request(&bytes), Ok(request));
    bytes[99] = b'x';
    assert_eq!(rt; decode_request(&bytes), Err(Bad::Filler));
    Ok(())
}
