// The device: one method for each of the five steps, each of which takes the device by value, with the borrowed array
// and the borrowed erase counts (crate wear), and gives back the next device with its answer. No method asks anything
// of its caller: what document 01's card refuses is refused so, the device given back, and the array and the counts
// left.
#![tactic(auto)]

ghost use Rattle.std.specs.Prelude.{List, ◌≡◌, ℕ, true, false, MatchResult};
ghost use Rattle.semantics.specs.State.{power_up};
ghost use Rattle.wear.specs.Counts.{lent, no_counts, count_of};
ghost use Rattle.wear.specs.Steps.{formed_with, refusal_with, reported_with, most_worn_with, erase_count_with};
ghost use Rattle.device.specs.Outcomes.{holding, refused, outcome, array_out, counts_out};

use geometry::Part;
use protection::Report;
use refusal::Refusal;
use semantics::{Answer, State, Step};
use wear::Worn;

// All that a device holds is its state. (Methods stand in the crate of their struct; the definitions of the state stand
// in a crate without code.)
#[derive(Clone, Copy)]
pub struct Device {
    pub state: State,
}

// The device after a step, and the step's answer.
#[derive(Clone, Copy)]
pub struct Outcome {
    pub device: Device,
    pub answer: Answer,
}

// Whether a state and its counts are well formed, whatever the small blocks' counts are.
fn formed_with(s: State, main: &[[u16; 16]; 16]) -> bool
    ensures { (small : List ℕ) → result ≡ formed_with s (lent main.now small) }
{
    state::well_formed(s) & wear::shared_zero(main)
}

// What every step on them is refused for, and a reset for nothing else, beside an array of n words: its length, then
// the state.
pub fn refusal_of(s: State, main: &[[u16; 16]; 16], n: usize) -> Option<Refusal>
    ensures { (small : List ℕ) → result ≡ refusal_with s (lent main.now small) n Step.Reset }
{
    state::refusal_beside(s.part, formed_with(s, main), n)
}

// A block with its count.
fn worn(main: &[[u16; 16]; 16], small: &[u16; 4], block: u32) -> Worn
    ensures { result ≡ record { block = block; count = count_of (lent main.now small.now) block } }
{
    let count = wear::count_of(main, small, block).into();
    Worn { block, count }
}

// What a report is refused for.
fn tested(s: State, main: &[[u16; 16]; 16]) -> Result<(), Refusal>
    ensures { (small : List ℕ) → MatchResult result (λ _. formed_with s (lent main.now small) ≡ true) (λ e. (formed_with s (lent main.now small) ≡ false) × (e ≡ Refusal.Malformed)) }
{
    if formed_with(s, main) {
        Ok(())
    } else {
        Err(Refusal::Malformed)
    }
}

// A step that is refused: nothing changes.
fn refused(d: Device, e: Refusal) -> Outcome
    ensures { result ≡ refused d e }
{
    Outcome {
        device: d,
        answer: Answer::Refused(e),
    }
}

impl Device {
    // Power-up of a part, with its counts at 0: it refuses nothing.
    pub fn power_up(part: Part, main: &mut [[u16; 16]; 16], small: &mut [u16; 4]) -> Device
        ensures device { result ≡ holding (power_up part) }
        ensures counts { lent main.new small.new ≡ no_counts }
    {
        wear::clear(main, small);
        Device {
            state: state::power_up(part),
        }
    }

    // The word that a read at an address shows.
    pub fn read(
        self,
        main: &[[u16; 16]; 16],
        small: &[u16; 4],
        array: &[u16],
        address: u32,
    ) -> Outcome
        ensures { result ≡ outcome self (lent main.now small.now) array.now (Step.Read address) }
    {
        let s = self.state;
        let refusal = state::first_refusal(
            refusal_of(s, main, array.len()),
            state::address_refusal(s.part, address),
        );
        if let Some(e) = refusal {
            return refused(self, e);
        }
        Outcome {
            device: self,
            answer: Answer::Word(reading::read_word(s, array, address)),
        }
    }

    // A write of a word to an address: a cycle of a command.
    pub fn write(
        self,
        main: &[[u16; 16]; 16],
        small: &[u16; 4],
        array: &[u16],
        address: u32,
        word: u16,
    ) -> Outcome
        ensures { result ≡ outcome self (lent main.now small.now) array.now (Step.Write address word) }
    {
        let s = self.state;
        let refusal = state::first_refusal(
            refusal_of(s, main, array.len()),
            state::address_refusal(s.part, address),
        );
        if let Some(e) = refusal {
            return refused(self, e);
        }
        Outcome {
            device: Device {
                state: writing::written(s, address, word),
            },
            answer: Answer::Done,
        }
    }

    // Up to so many units of work.
    pub fn work(
        self,
        main: &mut [[u16; 16]; 16],
        small: &mut [u16; 4],
        array: &mut [u16],
        count: u32,
    ) -> Outcome
        ensures outcome { result ≡ outcome self (lent main.old small.old) array.old (Step.Work count) }
        ensures array { array.new ≡ array_out self (lent main.old small.old) array.old (Step.Work count) }
        ensures counts { lent main.new small.new ≡ counts_out self (lent main.old small.old) array.old (Step.Work count) }
    {
        let s = self.state;
        let refusal = state::first_refusal(
            refusal_of(s, main, array.len()),
            state::count_refusal(count),
        );
        if let Some(e) = refusal {
            return refused(self, e);
        }
        let mut next = s;
        let worked = working::work(s.part, s.control, &mut next.buffer, array, count);
        next.control = worked.control;
        let was = s.control.activity.running;
        let left = worked.control.activity.running;
        wear::count_finished(main, small, was, left);
        Outcome {
            device: Device { state: next },
            answer: Answer::Units(worked.units),
        }
    }

    // The supply (VPP) switched on or off: off ends what runs.
    pub fn supply(
        self,
        main: &[[u16; 16]; 16],
        small: &[u16; 4],
        array: &[u16],
        on: bool,
    ) -> Outcome
        ensures { result ≡ outcome self (lent main.now small.now) array.now (Step.Supply on) }
    {
        if let Some(e) = refusal_of(self.state, main, array.len()) {
            return refused(self, e);
        }
        let mut next = self.state;
        next.control = state::switch_supply(next.control, on, &mut next.buffer);
        Outcome {
            device: Device { state: next },
            answer: Answer::Done,
        }
    }

    // Reset: the power-up state, but for the supply.
    pub fn reset(self, main: &[[u16; 16]; 16], small: &[u16; 4], array: &[u16]) -> Outcome
        ensures { result ≡ outcome self (lent main.now small.now) array.now Step.Reset }
    {
        if let Some(e) = refusal_of(self.state, main, array.len()) {
            return refused(self, e);
        }
        Outcome {
            device: Device {
                state: state::reset(self.state),
            },
            answer: Answer::Done,
        }
    }

    // Any of the five. (By a match: a step is data, which is read, encoded and told.)
    pub fn step(
        self,
        main: &mut [[u16; 16]; 16],
        small: &mut [u16; 4],
        array: &mut [u16],
        step: Step,
    ) -> Outcome
        ensures outcome { result ≡ outcome self (lent main.old small.old) array.old step }
        ensures array { array.new ≡ array_out self (lent main.old small.old) array.old step }
        ensures counts { lent main.new small.new ≡ counts_out self (lent main.old small.old) array.old step }
    {
        match step {
            Step::Read(address) => self.read(main, small, array, address),
            Step::Write(address, word) => self.write(main, small, array, address, word),
            Step::Work(count) => self.work(main, small, array, count),
            Step::Supply(on) => self.supply(main, small, array, on),
            Step::Reset => self.reset(main, small, array),
        }
    }

    // How many blocks are unprotected, and the lowest of them, or 259; refused where the state or the counts are not
    // well formed.
    pub fn report(self, main: &[[u16; 16]; 16], small: &[u16; 4]) -> Result<Report, Refusal>
        ensures { result ≡ reported_with self.state (lent main.now small.now) }
    {
        tested(self.state, main)?;
        Ok(protection::report_of(self.state.unprotected))
    }

    // The most worn block, the lowest of them on a tie, and its count; refused as the report above.
    pub fn most_worn(self, main: &[[u16; 16]; 16], small: &[u16; 4]) -> Result<Worn, Refusal>
        ensures { result ≡ most_worn_with self.state (lent main.now small.now) }
    {
        tested(self.state, main)?;
        Ok(worn(main, small, wear::most_worn(main, small)))
    }

    // The count of a block, 0 of a number that is no block; refused as the reports above.
    pub fn erase_count(
        self,
        main: &[[u16; 16]; 16],
        small: &[u16; 4],
        block: u32,
    ) -> Result<Worn, Refusal>
        ensures { result ≡ erase_count_with self.state (lent main.now small.now) block }
    {
        tested(self.state, main)?;
        Ok(worn(main, small, block))
    }
}
