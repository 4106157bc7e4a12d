// The protection of the 259 blocks of a part, one bit for each block in five words: bit b % 64 of word b / 64 is 1
// where block b is unprotected, so all blocks are protected where all words are zero. The 61 bits after block 258 are
// spare. Every function takes any words and any number. It is not the device: nothing here says when a block is
// protected.
#![tactic(auto)]

ghost use Rattle.std.specs.Prelude.{◌≡◌};
ghost use Rattle.protection.specs.Words.{is_unprotected, with_unprotected, report_of, without_spare, spare_zero, all_protected};

// The blocks of a part.
const BLOCKS: u32 = 259;

// How many blocks are unprotected, and the lowest of them, or 259 where there is none, as document 01 has it.
#[derive(Clone, Copy)]
pub struct Report {
    pub count: u32,
    pub lowest: u32,
}

// Whether a block is unprotected. The words are lent: an index by a variable would copy them all.
pub fn is_unprotected(words: &[u64; 5], block: u32) -> bool
    ensures { result ≡ is_unprotected words.now block }
{
    block < BLOCKS && (words[(block / 64) as usize] >> (block % 64)) % 2 == 1
}

// Unprotects a block, or protects it; one that is so already is left, and where the compiler sees that it is, there is
// nothing to do.
pub fn set_block(words: &mut [u64; 5], block: u32, value: bool)
    ensures { words.new ≡ with_unprotected words.old block value }
{
    if block < BLOCKS && is_unprotected(words, block) != value {
        words[(block / 64) as usize] ^= 1 << (block % 64);
    }
}

// The words with the spare bits at zero: the last word has three blocks.
fn without_spare(mut words: [u64; 5]) -> [u64; 5]
    ensures { result ≡ without_spare words }
{
    words[4] %= 8;
    words
}

// The report of unprotected blocks: the ones of each word, and the trailing zeros of the first word that has a one.
pub fn report_of(words: [u64; 5]) -> Report
    ensures { result ≡ report_of words }
{
    let kept = without_spare(words);
    let count = kept.iter().map(|w| w.count_ones()).sum();
    let lowest = match kept.iter().position(|w| *w != 0) {
        Some(i) => 64 * i as u32 + kept[i].trailing_zeros(),
        None => BLOCKS,
    };
    Report { count, lowest }
}

// Whether the spare bits are zero.
pub fn spare_zero(words: [u64; 5]) -> bool
    ensures { result ≡ spare_zero words }
{
    words[4] < 8
}

// The words at power-up.
pub fn all_protected() -> [u64; 5]
    ensures { result ≡ all_protected }
{
    [0; 5]
}
