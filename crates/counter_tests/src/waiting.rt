//! A client that waits for its answer before it sends more.
use crate::streams::{ends, first_record};
use failing_ends::{HeardWriter, WaitingReader};
use std::cell::Cell;

// It sends a record three times.
#[test]
fn a_client_that_waits_for_each_answer(rt: HostRuntime) {
    let heard = Cell::new(0);
    let records = [first_record(); 3];
    let mut reader = WaitingReader {
        heard: &heard,
        bytes: records.as_flattened(),
        piece: 100,
        sent: 0,
        message: 100,
        answer: 200,
    };
    let mut writer = HeardWriter {
        heard: &heard,
        taken: Vec::new(rt.alloc()),
    };
    ends(&rt, &mut reader, &mut writer, (Ok(3), (500, 0)));
    assert!(rt; heard.get() == 600);
}
