//! The first program of `command_line`.
use command_line::{Status, print_created, tell};
use std::io::Write;

pub fn first_ending<W: Write, E: Write>(output: &mut W, faults: &mut E) -> Status {
    match print_created(output) {
        Ok(()) => Status::Done,
        Err(fault) => tell(fault, faults),
    }
}
