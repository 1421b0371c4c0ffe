//! The words of a seed, and the number that a word draws.
ghost use Rattle.std.specs.Prelude.{◌≡◌, ◌<◌, ◌+◌, ◌*◌, ℕ};
ghost use Rattle.load_driver.specs.believed.Draw.{draw, words_after};

use rand::RngExt;
use rand_core::SeedableRng;
use rand_core::utils::NextWord;
use rand_pcg::{Lcg64Xsh32, Lcg128Xsl64};

// The number below `bound` that a word draws: the word is the seed of a small generator, which draws by
// `random_range` of `rand`.
pub(crate) fn draw(word: u64, bound: u64) -> u64
    requires { 0 < bound }
    ensures value { result ≡ draw word bound }
    ensures below { result < bound }
{
    Lcg64Xsh32::seed_from_u64(word).random_range(0..bound)
}

// The generator of a seed's words.
pub(crate) fn words_of(seed: u64) -> Lcg128Xsl64
    ensures { result ≡ words_after seed 0 }
{
    Lcg128Xsl64::seed_from_u64(seed)
}

/// The four words of a record, one for each draw.
#[derive(Clone, Copy)]
pub(crate) struct Words {
    /// It draws the teller.
    pub teller: u64,
    /// It draws X.
    pub choice: u64,
    /// It draws the account.
    pub account: u64,
    /// It draws the amount.
    pub amount: u64,
}

ghost use Rattle.load_driver.specs.Words.{TakesWords};

// Takes the four words of the next record.
pub(crate) fn take_words(generator: &mut Lcg128Xsl64) -> Words
    ensures { (seed n : ℕ) → generator.old ≡ words_after seed (4 * n)
        → TakesWords seed n result generator.new }
{
    let teller = generator.next_word();
    let choice = generator.next_word();
    let account = generator.next_word();
    let amount = generator.next_word();
    Words {
        teller,
        choice,
        account,
        amount,
    }
}
