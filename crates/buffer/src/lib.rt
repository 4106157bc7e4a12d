// The 32 words of the write buffer (document 02, item 1): empty, loaded word by word, kept or emptied, and the test of
// its spare places. Every function takes any words and any number. When a word is loaded, or in use, is not said here.
#![tactic(auto)]

ghost use Rattle.std.specs.Prelude.{◌≡◌, cond, ◌≤◌, ltb, eqb, set};
ghost use Rattle.semantics.specs.State.{empty_buffer};
ghost use Rattle.semantics.specs.WellFormed.{zero_from};
ghost use Rattle.semantics.specs.Writing.{kept_if, first_loaded};

use std::array;

// Nothing in it.
#[tactic(auto, unfolding(semantics::specs::State::empty_buffer))]
pub fn empty() -> [u16; 32]
    ensures { result ≡ empty_buffer }
{
    [0; 32]
}

// Every word from place n on is 0: all of them are read, which is faster than to stop at the first that is not.
fn zero_after(words: [u16; 32], n: usize) -> bool
    ensures { result ≡ zero_from n words }
{
    words[n.min(32)..].iter().fold(0, |any, word| any | *word) == 0
}

// The words from place n on are 0. That of all places is a call of its own, which is compiled for all 32: nearly every
// test is that one.
pub fn zero_from(words: [u16; 32], n: u64) -> bool
    ensures { result ≡ zero_from n words }
{
    if n == 0 {
        zero_after(words, 0)
    } else {
        zero_after(words, n as usize)
    }
}

// The words stay where they are in use, and else are all 0.
#[tactic(auto, unfolding(semantics::specs::Writing::kept_if))]
pub fn keep_if(words: &mut [u16; 32], used: bool)
    ensures { words.new ≡ kept_if used words.old }
{
    if !used {
        *words = empty();
    }
}

// The words after the first of n: the further ones FFFFh, and 0 in the spare places.
pub fn first_loaded(n: u32, word: u16) -> [u16; 32]
    ensures { result ≡ first_loaded n word }
{
    array::from_fn(
        |i|
            ensures { result ≡ cond (eqb i 0) word (cond (ltb i n) 0xFFFF 0) }
        {
            if i == 0 {
                word
            } else if i < n as usize {
                0xffff
            } else {
                0
            }
        },
    )
}

// Puts a word in at place i, where it stands. A number that is no place changes nothing. By index: of a word that is
// written through `get_mut` a proof knows nothing afterwards.
pub fn load(words: &mut [u16; 32], i: u32, word: u16)
    ensures { words.new ≡ set words.old i word }
{
    if i < 32 {
        words[i as usize] = word;
    }
}
