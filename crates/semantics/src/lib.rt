// What a device holds (document 01, "What a device holds"), the five steps, and their answers: the types, and no
// function. What the steps mean and the journal are in specs/, and the theorem that ties the two is in proofs/. The
// code is in the crates above this one.
#![tactic(auto)]

use geometry::Part;
use refusal::Refusal;

// The read mode of a bank.
#[derive(Clone, Copy)]
pub enum Mode {
    Array,
    Status,
    Signature,
    Query,
}

#[derive(Clone, Copy)]
pub struct Bank {
    pub mode: Mode,
}

// The pending set-up: of a command that has two cycles the first; of a buffer program (document 02, item 1) its load,
// as far as it has come. Of the load its count is due, with the block that was addressed; or its first data cycle, with
// the number of its words; or so many further data cycles, and where `due` is 0 the confirming cycle, with the location
// that the words start at. (Nothing is one of the set-ups, as document 01 lists them.)
#[derive(Clone, Copy)]
pub enum Setup {
    Nothing,
    Program,
    Erase,
    Lock,
    BufferCount { block: u32 },
    BufferFirst { block: u32, words: u32 },
    BufferWords { start: u32, words: u32, due: u32 },
}

// The operation that runs: a program with its location and data, an erase with its block and the words that it has
// done, or a buffer program with the location that its words start at, their number, and how many it has done. The
// words themselves stand in the buffer.
#[derive(Clone, Copy)]
pub enum Running {
    Idle,
    Program { location: u32, word: u16 },
    Erase { block: u32, done: u32 },
    Buffer { start: u32, words: u32, done: u32 },
}

#[derive(Clone, Copy)]
pub enum SuspendedProgram {
    Nothing,
    Program { location: u32, word: u16 },
    Buffer { start: u32, words: u32, done: u32 },
}

// A suspended erase: its block, and the words that it has done.
#[derive(Clone, Copy)]
pub struct SuspendedErase {
    pub block: u32,
    pub done: u32,
}

// All that is under way: the set-up that is pending, what runs, and what is suspended.
#[derive(Clone, Copy)]
pub struct Activity {
    pub setup: Setup,
    pub running: Running,
    pub program: SuspendedProgram,
    pub erase: Option<SuspendedErase>,
}

// The flags of the status register that stay until they are cleared.
#[derive(Clone, Copy)]
pub struct Flags {
    pub sr5: bool,
    pub sr4: bool,
    pub sr3: bool,
    pub sr1: bool,
}

// What is held once, and not for each bank or block: what is under way, the flags, the configuration register, and
// whether the supply (VPP) is on.
#[derive(Clone, Copy)]
pub struct Control {
    pub activity: Activity,
    pub flags: Flags,
    pub configuration: u16,
    pub supply: bool,
}

// `unprotected`: bit b % 64 of word b / 64 is 1 where block b is unprotected (document 01: open). `buffer`: the words
// of a load, or of a buffer program, from the lowest location up; a place that is not in use is 0.
#[derive(Clone, Copy)]
pub struct State {
    pub part: Part,
    pub banks: [Bank; 16],
    pub unprotected: [u64; 5],
    pub control: Control,
    pub buffer: [u16; 32],
}

// What an address names: its location, and the bank and the block that this lies in.
#[derive(Clone, Copy)]
pub struct Place {
    pub address: u32,
    pub location: u32,
    pub bank: u32,
    pub block: u32,
}

// What a read or a write at a place sees of a state, and a write may change: of the modes that of the addressed bank,
// of the protection that of the addressed block. The buffer, which only the cycles of a load change, is not among it.
#[derive(Clone, Copy)]
pub struct View {
    pub mode: Mode,
    pub unprotected: bool,
    pub control: Control,
}

// What work makes of the control, and the units that were done.
#[derive(Clone, Copy)]
pub struct Worked {
    pub control: Control,
    pub units: u32,
}

// One of the five steps: read an address; write a word to an address; work up to so many units; switch the supply;
// reset.
#[derive(Clone, Copy)]
pub enum Step {
    Read(u32),
    Write(u32, u16),
    Work(u32),
    Supply(bool),
    Reset,
}

// What a step answers: a word that was read, the units that were done, that it was done, or why it is refused: a row of
// document 01's card. (Not a Result: document 01 gives each of the four kinds its number and its value, `number_of` and
// `value_of`.)
#[derive(Clone, Copy)]
pub enum Answer {
    Word(u16),
    Units(u32),
    Done,
    Refused(Refusal),
}

// The state after a step, and its answer.
#[derive(Clone, Copy)]
pub struct Next {
    pub state: State,
    pub answer: Answer,
}

// The commands of a first cycle.
#[derive(Clone, Copy)]
pub enum Command {
    ReadArray,
    ReadStatus,
    ReadSignature,
    ReadQuery,
    Suspend,
    Resume,
    ClearStatus,
    SetUpProgram,
    SetUpErase,
    SetUpLock,
    SetUpBuffer,
    Unknown,
}

// The commands of a second cycle after a lock set-up.
#[derive(Clone, Copy)]
pub enum LockCommand {
    Protect,
    Unprotect,
    Configure,
    Unknown,
}
