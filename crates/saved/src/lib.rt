// A device's state as 25 words, so that programs in C can keep it, and back. Each public function takes every state and
// all words.
#![tactic(auto)]

ghost use Rattle.std.specs.Prelude.{◌≡◌, ◌+◌, ◌<◌, ◌≤◌, get_or};
ghost use Rattle.std.proofs.lemmas.List.Edits.{sets};
ghost use Rattle.geometry.specs.Blocks.{part_numbered};
ghost use Rattle.saved.specs.Saved.{part_number, bank_number, bank_numbered, flag_numbered, half, setup_numbers};
ghost use Rattle.saved.specs.Saved.{setup_of, running_numbers, running_of, program_numbers, program_of};
ghost use Rattle.saved.specs.Saved.{erase_numbers, erase_of, joined, in_halves, four_at, holds};
ghost use Rattle.saved.specs.Saved.{modes_word, modes_in, banks_of, activity_words, control_word, rest_words};
ghost use Rattle.saved.specs.Saved.{packed, buffer_words, buffer_in, saved_of, loaded_of, no_state};
ghost use Rattle.saved.specs.Saved.{found_of, put_into, activity_of, flags_in, bytes_below};
ghost use Rattle.saved.specs.Saved.{activity_same, decoded_of, rest_in_range, resting};
ghost use Rattle.saved.specs.Laws.{Fitting};

use geometry::Part;
use semantics::{
    Activity, Bank, Control, Flags, Mode, Running, Setup, State, SuspendedErase, SuspendedProgram,
};

// The upper half of a word is from here on.
const HALF: u64 = 4294967296;

// Nothing is pending, runs or is suspended.
const RESTING: Activity = Activity {
    setup: Setup::Nothing,
    running: Running::Idle,
    program: SuspendedProgram::Nothing,
    erase: None,
};

// ---- what is pending, runs or is suspended, as numbers and back

// Its kind, and three numbers, of which one that it does not use is 0. Back, the last kind stands for every other
// number too. A tuple, since the definitions (`setup_numbers`) are of tuples.
#[derive(Clone, Copy)]
struct Four(u32, u32, u32, u32);

impl From<Setup> for Four {
    ghost from_gives = { λ s f. f ≡ setup_numbers s };

    fn from(setup: Setup) -> Four {
        match setup {
            Setup::Nothing => Four(0, 0, 0, 0),
            Setup::Program => Four(1, 0, 0, 0),
            Setup::Erase => Four(2, 0, 0, 0),
            Setup::Lock => Four(3, 0, 0, 0),
            Setup::BufferCount { block } => Four(4, block, 0, 0),
            Setup::BufferFirst { block, words } => Four(5, block, words, 0),
            Setup::BufferWords { start, words, due } => Four(6, start, words, due),
        }
    }
}

impl From<Four> for Setup {
    ghost from_gives = { λ f s. s ≡ setup_of f };

    fn from(Four(kind, a, b, c): Four) -> Setup {
        match kind {
            0 => Setup::Nothing,
            1 => Setup::Program,
            2 => Setup::Erase,
            3 => Setup::Lock,
            4 => Setup::BufferCount { block: a },
            5 => Setup::BufferFirst { block: a, words: b },
            _ => Setup::BufferWords {
                start: a,
                words: b,
                due: c,
            },
        }
    }
}

impl From<Running> for Four {
    ghost from_gives = { λ r f. f ≡ running_numbers r };

    fn from(running: Running) -> Four {
        match running {
            Running::Idle => Four(0, 0, 0, 0),
            Running::Program { location, word } => Four(1, location, u32::from(word), 0),
            Running::Erase { block, done } => Four(2, block, done, 0),
            Running::Buffer { start, words, done } => Four(3, start, words, done),
        }
    }
}

impl From<Four> for Running {
    ghost from_gives = { λ f r. r ≡ running_of f };

    fn from(Four(kind, a, b, c): Four) -> Running {
        match kind {
            0 => Running::Idle,
            1 => Running::Program {
                location: a,
                word: (b % 65536) as u16,
            },
            2 => Running::Erase { block: a, done: b },
            _ => Running::Buffer {
                start: a,
                words: b,
                done: c,
            },
        }
    }
}

impl From<SuspendedProgram> for Four {
    ghost from_gives = { λ p f. f ≡ program_numbers p };

    fn from(program: SuspendedProgram) -> Four {
        match program {
            SuspendedProgram::Nothing => Four(0, 0, 0, 0),
            SuspendedProgram::Program { location, word } => Four(1, location, u32::from(word), 0),
            SuspendedProgram::Buffer { start, words, done } => Four(2, start, words, done),
        }
    }
}

impl From<Four> for SuspendedProgram {
    ghost from_gives = { λ f p. p ≡ program_of f };

    fn from(Four(kind, a, b, c): Four) -> SuspendedProgram {
        match kind {
            0 => SuspendedProgram::Nothing,
            1 => SuspendedProgram::Program {
                location: a,
                word: (b % 65536) as u16,
            },
            _ => SuspendedProgram::Buffer {
                start: a,
                words: b,
                done: c,
            },
        }
    }
}

impl From<Option<SuspendedErase>> for Four {
    ghost from_gives = { λ e f. f ≡ erase_numbers e };

    fn from(erase: Option<SuspendedErase>) -> Four {
        match erase {
            None => Four(0, 0, 0, 0),
            Some(SuspendedErase { block, done }) => Four(1, block, done, 0),
        }
    }
}

impl From<Four> for Option<SuspendedErase> {
    ghost from_gives = { λ f e. e ≡ erase_of f };

    fn from(Four(kind, block, done, _): Four) -> Option<SuspendedErase> {
        match kind {
            0 => None,
            _ => Some(SuspendedErase { block, done }),
        }
    }
}

impl Four {
    // Those of two words.
    fn at(words: &[u64; 25], i: usize) -> Four
        requires { i + 2 ≤ 25 }
        ensures { result ≡ four_at words.now i }
    {
        let (v, w) = (words[i], words[i + 1]);
        Four(
            (v % HALF) as u32,
            (v / HALF) as u32,
            (w % HALF) as u32,
            (w / HALF) as u32,
        )
    }

    // The two words that hold them, the first in the lower half.
    fn halves(self) -> [u64; 2]
        ensures { result ≡ in_halves self }
    {
        let Four(kind, a, b, c) = self;
        [
            u64::from(kind) + u64::from(a) * HALF,
            u64::from(b) + u64::from(c) * HALF,
        ]
    }

    // Two words hold them. Both are read, so that it takes no jump.
    fn is_at(self, words: &[u64; 25], i: usize) -> bool
        requires { i + 2 ≤ 25 }
        ensures { result ≡ holds words.now i self }
    {
        let [v, w] = self.halves();
        (words[i] == v) & (words[i + 1] == w)
    }

    fn put(self, words: &mut [u64; 25], i: usize)
        requires { i + 2 ≤ 25 }
        ensures { words.new ≡ sets words.old i (in_halves self) }
    {
        let [v, w] = self.halves();
        words[i] = v;
        words[i + 1] = w;
    }
}

// ---- the state of words

// Of a byte the two lowest bits.
fn bank_numbered(w: u64) -> Bank
    ensures { result ≡ bank_numbered w }
{
    let mode = match w % 4 {
        0 => Mode::Array,
        1 => Mode::Status,
        2 => Mode::Signature,
        _ => Mode::Query,
    };
    Bank { mode }
}

// The part that the first word names: every other number is the last.
fn part_in(words: &[u64]) -> Part
    ensures { result ≡ part_numbered (get_or words.now 0 0) }
{
    let n = words.first().copied().unwrap_or(0);
    geometry::part_numbered(n.min(3) as u32)
}

fn activity_of(words: &[u64; 25]) -> Activity
    ensures { result ≡ activity_of words.now }
{
    Activity {
        setup: Setup::from(Four::at(words, 3)),
        running: Running::from(Four::at(words, 5)),
        program: SuspendedProgram::from(Four::at(words, 7)),
        erase: Option::from(Four::at(words, 9)),
    }
}

// The eight words of what is under way are 0, as those of nothing are. All are read, so that it takes no jump.
#[tactic(auto, unfolding(crate::specs::Saved::activity_same))]
fn at_rest(words: &[u64; 25]) -> bool
    ensures { result ≡ activity_same words.now resting }
{
    let none = Four(0, 0, 0, 0);
    let (s, r) = (none.is_at(words, 3), none.is_at(words, 5));
    let (p, e) = (none.is_at(words, 7), none.is_at(words, 9));
    s & (r & (p & e))
}

// The words of what is under way are those that this is saved as.
#[tactic(auto, unfolding(crate::specs::Saved::activity_same))]
fn activity_same(words: &[u64; 25], a: Activity) -> bool
    ensures { result ≡ activity_same words.now a }
{
    Four::from(a.setup).is_at(words, 3)
        && Four::from(a.running).is_at(words, 5)
        && Four::from(a.program).is_at(words, 7)
        && Four::from(a.erase).is_at(words, 9)
}

// What is under way, where its words are just those that it is saved as. At rest, the common case of a call, nothing is
// decoded or compared.
#[tactic(auto, using(crate::specs::Ranges::rest_decoded))]
fn decode_activity(words: &[u64; 25]) -> Option<Activity>
    ensures { result ≡ decoded_of words.now }
{
    if at_rest(words) {
        return Some(RESTING);
    }
    let a = activity_of(words);
    activity_same(words, a).then_some(a)
}

// The lowest n bytes, and what is above them, are each below m. No return from the loop, so that the compiler makes a
// test of one mask of it.
fn bytes_below(m: u64, n: usize, w: u64) -> bool
    ensures { result ≡ bytes_below m n w }
{
    let mut below = true;
    let mut rest = w;
    for i in 0..n {
        below &= rest % 256 < m;
        rest /= 256;
    }
    below & (rest < m)
}

// Each word is in its range, but for those of what is under way.
#[tactic(auto, unfolding(crate::specs::Saved::rest_in_range))]
fn rest_in_range(words: &[u64; 25]) -> bool
    ensures { result ≡ rest_in_range words.now }
{
    words[0] < 4
        && bytes_below(4, 7, words[1])
        && bytes_below(4, 7, words[2])
        && bytes_below(2, 3, words[11] % HALF) & (words[11] / HALF / 65536 < 2)
}

// The banks with the modes of eight from one on, a byte each. By `&mut` a call took 20 instructions more.
fn with_modes(banks: [Bank; 16], from: usize, w: u64) -> [Bank; 16]
    requires { from ≤ 8 }
    ensures { result ≡ sets banks from (modes_in w) }
{
    let mut now = banks;
    let mut rest = w;
    for i in 0..8 {
        now[from + i] = bank_numbered(rest);
        rest /= 256;
    }
    now
}

#[tactic(auto, unfolding(semantics::specs::Tabulate::tabulate))]
fn banks_of(words: &[u64; 25]) -> [Bank; 16]
    ensures { result ≡ banks_of words.now }
{
    let none = [Bank { mode: Mode::Array }; 16];
    with_modes(with_modes(none, 0, words[1]), 8, words[2])
}

// Of a byte the lowest bit.
fn flag_numbered(w: u64) -> bool
    ensures { result ≡ flag_numbered w }
{
    w % 2 != 0
}

fn flags_of(w: u64) -> Flags
    ensures { result ≡ flags_in w }
{
    Flags {
        sr5: flag_numbered(w),
        sr4: flag_numbered(w / 256),
        sr3: flag_numbered(w / 256 / 256),
        sr1: flag_numbered(w / 256 / 256 / 256),
    }
}

// The words of the buffer, four from each. By places, here and in `put_buffer`: of what an iterator writes no proof
// knows.
fn buffer_of(words: &[u64; 25]) -> [u16; 32]
    ensures { result ≡ buffer_in words.now }
{
    let mut buffer = [0u16; 32];
    for j in 0..8 {
        let w = words[17 + j];
        buffer[4 * j] = (w % 65536) as u16;
        buffer[4 * j + 1] = (w / 65536 % 65536) as u16;
        buffer[4 * j + 2] = (w / HALF % 65536) as u16;
        buffer[4 * j + 3] = (w / 281474976710656) as u16;
    }
    buffer
}

// The state of words of which what is under way is decoded already.
#[tactic(auto, unfolding(crate::specs::Saved::loaded_of))]
fn load_with(words: &[u64; 25], activity: Activity) -> State
    requires { activity ≡ activity_of words.now }
    ensures { result ≡ loaded_of words.now }
{
    let w = words[11];
    State {
        part: part_in(words),
        banks: banks_of(words),
        unprotected: [words[12], words[13], words[14], words[15], words[16]],
        control: Control {
            activity,
            flags: flags_of(w % HALF),
            configuration: (w / HALF % 65536) as u16,
            supply: flag_numbered(w / HALF / 65536),
        },
        buffer: buffer_of(words),
    }
}

// The state for words that are no saved state: the device refuses every step on it.
#[tactic(auto, unfolding(crate::specs::Saved::no_state))]
fn no_state(words: &[u64]) -> State
    ensures { result ≡ no_state words.now }
{
    state::with_protection(state::power_up(part_in(words)), [0, 0, 0, 0, 8])
}

// Tests the words, once, and gives their state: `Ok` that which was saved, and `Err`, where they are no saved state,
// the one that the device refuses every step on.
pub fn found_in(words: &[u64]) -> Result<State, State>
    ensures { result ≡ found_of words.now }
{
    if let Some(saved) = words.as_array::<25>()
        && rest_in_range(saved)
        && let Some(activity) = decode_activity(saved)
    {
        return Ok(load_with(saved, activity));
    }
    Err(no_state(words))
}

// ---- the words of a state, put in place

fn part_number(part: Part) -> u64
    ensures { result ≡ part_number part }
{
    part as u64
}

fn bank_number(bank: Bank) -> u64
    ensures value { result ≡ bank_number bank }
    ensures small { result < 4 }
{
    bank.mode as u64
}

// The modes of eight banks from one on, a byte each. By `array::from_fn` the proof did not close: what each call of the
// closure reads is not said to be these banks.
fn modes_word(banks: [Bank; 16], from: usize) -> u64
    requires { from ≤ 8 }
    ensures { result ≡ modes_word banks from }
{
    let mut w = 0;
    for i in (0..8).rev() {
        w = bank_number(banks[from + i]) + w * 256;
    }
    w
}

fn put_activity(words: &mut [u64; 25], a: Activity)
    ensures { words.new ≡ sets words.old 3 (activity_words a) }
{
    Four::from(a.setup).put(words, 3);
    Four::from(a.running).put(words, 5);
    Four::from(a.program).put(words, 7);
    Four::from(a.erase).put(words, 9);
}

// The flags a byte each, above them the configuration register, above it the supply. By `u64::from_le_bytes` it took 9
// instructions more: each flag was masked apart.
fn control_word(f: Flags, configuration: u16, supply: bool) -> u64
    ensures { result ≡ control_word f configuration supply }
{
    let three = u64::from(f.sr4) + (u64::from(f.sr3) + u64::from(f.sr1) * 256) * 256;
    let low = u64::from(f.sr5) + three * 256;
    let high = u64::from(configuration) + u64::from(supply) * 65536;
    low + high * HALF
}

#[tactic(auto, unfolding(semantics::specs::Tabulate::tabulate))]
fn put_rest(words: &mut [u64; 25], c: Control, unprotected: [u64; 5])
    ensures { words.new ≡ sets words.old 11 (rest_words c.flags unprotected c.configuration c.supply) }
{
    words[11] = control_word(c.flags, c.configuration, c.supply);
    [words[12], words[13], words[14], words[15], words[16]] = unprotected;
}

// Four words of the buffer in one.
fn packed(a: u16, b: u16, c: u16, d: u16) -> u64
    ensures { result ≡ packed a b c d }
{
    u64::from(a) + u64::from(b) * 65536 + u64::from(c) * HALF + u64::from(d) * 281474976710656
}

fn put_buffer(words: &mut [u64; 25], buffer: [u16; 32])
    ensures { words.new ≡ sets words.old 17 (buffer_words buffer) }
{
    for j in 0..8 {
        let i = 4 * j;
        words[17 + j] = packed(buffer[i], buffer[i + 1], buffer[i + 2], buffer[i + 3]);
    }
}

fn put_state(words: &mut [u64; 25], s: State)
    ensures { words.new ≡ saved_of s }
{
    words[0] = part_number(s.part);
    words[1] = modes_word(s.banks, 0);
    words[2] = modes_word(s.banks, 8);
    put_activity(words, s.control.activity);
    put_rest(words, s.control, s.unprotected);
    put_buffer(words, s.buffer);
}

// Puts the words of a state into room for just 25. Every state of the code fits its types, so that it is got back from
// them (`state_back` of specs/Laws).
pub fn save(s: State, words: &mut [u64])
    ensures words_after { words.new ≡ put_into words.old (saved_of s) }
    ensures fitting { Fitting s }
{
    if let Some(room) = words.as_mut_array::<25>() {
        put_state(room, s);
    }
}
