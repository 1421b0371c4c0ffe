//! The first program of `bank_commands`.
ghost use Rattle.std.specs.Prelude.{◌≡◌, false};

use bank_commands::{Ended, find, init_over, load_found, post_found};
use command_line::Plans;
use posting_core::Clock;
use sqlite::{Alter, Connection};
use std::alloc::Global;
use std::io::{Read, Write};

pub fn first_commands<S: Alter + Drop, P: Plans, R: Read, W: Write, K: Clock>(
    alloc: Global,
    conn: Connection<S>,
    plans: &P,
    plan: &str,
    input: &mut R,
    output: &mut W,
    clock: &mut K,
) -> Ended<S>
    requires { conn.in_transaction ≡ false }
{
    let made = init_over(alloc, conn, output);
    let mut bank = match find(alloc, made.conn) {
        Ok(bank) => bank,
        Err(ended) => return ended,
    };
    let end = match load_found(alloc, &mut bank, plans, plan, output) {
        Ok(_) => post_found(&mut bank, input, output, clock),
        end => end,
    };
    Ended {
        end,
        conn: bank.release(),
    }
}
