//! The first program of `load_driver`.
use branch_loader::Plan;
use load_driver::{Driver, DriverFault};
use message_records::REQUEST_BYTES;
use std::alloc::Global;

pub fn first_requests(
    alloc: Global,
    plan: &Plan,
) -> Result<[Option<[u8; REQUEST_BYTES]>; 3], DriverFault> {
    let mut driver = Driver::new(alloc, plan, 7)?;
    Ok([driver.next(), driver.next(), driver.next()])
}
