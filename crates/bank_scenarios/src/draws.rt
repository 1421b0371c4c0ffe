//! Mixed records, drawn from a seed.
use crate::records::bytes_of;
use anyhow::{Context, Result};
use message_records::{Branch, REFERENCE_BYTES, REQUEST_BYTES, Reference};
use posting_core::{TELLERS_PER_BRANCH, first_account, first_teller};

/// A generator of numbers, which shifts a word that isn't zero.
#[derive(Drop)]
pub struct Draws {
    word: u64,
}

impl Draws {
    /// The numbers of a seed, which isn't 0.
    pub fn new(seed: u64) -> Self {
        Draws {
            word: seed.wrapping_mul(0x9e37_79b9_7f4a_7c15),
        }
    }

    /// A number below the bound, or 0.
    pub fn below(&mut self, bound: u32) -> u32 {
        self.word ^= self.word << 13;
        self.word ^= self.word >> 7;
        self.word ^= self.word << 17;
        let drawn = (self.word >> 20) % u64::from(bound.max(1));
        u32::try_from(drawn).unwrap_or(0)
    }

    fn byte_below(&mut self, bound: u32) -> u8 {
        u8::try_from(self.below(bound)).unwrap_or(0)
    }

    fn is_one_of(&mut self, chances: u32) -> bool {
        self.below(chances) == 0
    }
}

// How many branch numbers are below a branch, and its count of accounts. Branch 1 with 3 comes more often
// than branch 2 with 2, or branch 9999 with 1000.
fn branch_by(draws: &mut Draws) -> (u16, u16) {
    match draws.below(8) {
        0..=5 => (0, 3),
        6 => (1, 2),
        _ => (9998, 1000),
    }
}

// Small amounts, zero, and amounts near the limit, more often above zero.
fn amount_by(draws: &mut Draws) -> i64 {
    match draws.below(10) {
        0 => 0,
        1 | 2 => i64::from(draws.below(2_000_000)) - 1_000_000,
        3 => i64::from(draws.below(1_000)) - 9_999_999_999,
        _ => 9_999_999_999 - i64::from(draws.below(1_000)),
    }
}

// Every third request has a reference: a letter as often as it has bytes.
fn reference_by(number: u64) -> Option<Reference> {
    if !number.is_multiple_of(3) {
        return None;
    }
    let letter = u8::try_from(number % 20).unwrap_or(0);
    Reference::new(&[letter.wrapping_add(b'A'); REFERENCE_BYTES])
}

// A request of this number: mostly of an open teller, its branch and an open account.
fn request_by(draws: &mut Draws, number: u64) -> Option<[u8; REQUEST_BYTES]> {
    let (before, home_count) = branch_by(draws);
    let (mut other, mut count) = (before, home_count);
    if draws.is_one_of(7) {
        (other, count) = branch_by(draws);
    }
    // Now and then the branch isn't the teller's, the teller isn't open, or the account isn't.
    let branch = u64::from(before) + if draws.is_one_of(20) { 2 } else { 1 };
    let opened = if draws.is_one_of(20) { 2 } else { before };
    let home = Branch::new(u64::from(opened) + 1)?;
    let teller = first_teller(home) + u64::from(draws.below(TELLERS_PER_BRANCH as u32));
    let place = if draws.is_one_of(20) {
        u64::from(count)
    } else {
        u64::from(draws.below(u32::from(count)))
    };
    let account = first_account(Branch::new(u64::from(other) + 1)?) + place;
    let reference = reference_by(number);
    bytes_of(account, teller, branch, number, amount_by(draws), reference)
}

// An earlier record: the same, with another amount, with a byte that is wrong, or with another reference.
fn again(draws: &mut Draws, sent: &[[u8; REQUEST_BYTES]]) -> Option<[u8; REQUEST_BYTES]> {
    let last = u32::try_from(sent.len()).unwrap_or(0);
    let mut bytes = *sent.get(draws.below(last) as usize)?;
    match draws.below(4) {
        // The last digit of the amount.
        0 => bytes[50] = b'0'.wrapping_add(draws.byte_below(10)),
        1 => {
            let byte = draws.byte_below(256);
            if let Some(place) = bytes.get_mut(draws.below(100) as usize) {
                *place = byte;
            }
        }
        // The first byte of a reference.
        2 if bytes[3] == b'2' => bytes[51] = b'Z',
        _ => {}
    }
    Some(bytes)
}

/// Puts a group of so many records after those that were sent.
pub fn draw_group(
    draws: &mut Draws,
    count: u32,
    sent: &mut Vec<[u8; REQUEST_BYTES]>,
) -> Result<()> {
    for _ in 0..count {
        let number = (sent.len() as u64).saturating_add(1);
        let fresh = request_by(draws, number).context("a request")?;
        let chosen = if draws.is_one_of(4) {
            again(draws, sent.as_slice()).unwrap_or(fresh)
        } else {
            fresh
        };
        sent.push(chosen)?;
    }
    Ok(())
}
