// A list of encoded steps played on a device, its borrowed erase counts and a borrowed array, with the answers written
// into borrowed room. Demand 3 stands in its contract, and the counts' theorem beside it.
#![tactic(auto)]

ghost use Rattle.std.specs.Prelude.{List, ◌≡◌, ℕ};
ghost use Rattle.geometry.specs.Blocks.{geometry_of};
ghost use Rattle.semantics.specs.Encoding.{decode};
ghost use Rattle.writing.specs.Changes.{settled_in};
ghost use Rattle.wear.specs.Counts.{Counts, lent};
ghost use Rattle.wear.specs.Held.{Held};
ghost use Rattle.device.specs.Outcomes.{holding};
ghost use Rattle.semantics.specs.declared.State.{State};
ghost use Rattle.playback.specs.Playback.{answer_code, Played};
ghost use Rattle.playback.specs.Tasks.{allowed, task_of};
ghost use Rattle.playback.specs.Reads.{few_reads};

use device::Device;
use geometry::Part;
use refusal::Refusal;
use semantics::{Activity, Answer, Bank, Control, Mode, Place, State, Step, View};
use writing::Change;

// How many steps were played, and the device after them.
#[derive(Clone, Copy)]
pub struct RunEnd {
    pub played: usize,
    pub device: Device,
}

// What a number asks of a list: its end, where it encodes no step; a refusal; or a step that is not refused, a write
// with the place that it names. (One enum: as an Option of a Result it would be three matches in the loop.)
#[derive(Clone, Copy)]
pub enum Task {
    End,
    Refused(Refusal),
    Read(u32),
    Write(Place, u16),
    Work(u32),
    Supply(bool),
    Reset,
}

// The step that a number encodes, if it encodes one. A read is its address, so it is told by one comparison.
pub fn decoded(code: u64) -> Option<Step>
    ensures { result ≡ decode code }
{
    let kind = code / 281474976710656;
    let word = (code / 4294967296 % 65536) as u16;
    let operand = (code % 4294967296) as u32;
    if code < 4294967296 {
        return Some(Step::Read(operand));
    }
    match kind {
        1 => Some(Step::Write(operand, word)),
        _ if word != 0 => None,
        2 => Some(Step::Work(operand)),
        3 if operand < 2 => Some(Step::Supply(operand == 1)),
        4 if operand == 0 => Some(Step::Reset),
        _ => None,
    }
}

// An answer as a number: document 01's refusal number in the upper half, the value in the lower.
pub fn answer_code(a: Answer) -> u64
    ensures { result ≡ answer_code a }
{
    match a {
        Answer::Word(w) => w.into(),
        Answer::Units(n) => n.into(),
        Answer::Done => 0,
        Answer::Refused(e) => u64::from(u32::from(e)) * 4294967296,
    }
}

// A step that is not refused.
fn allowed(part: Part, x: Step) -> Task
    ensures { result ≡ allowed (geometry_of part) x }
{
    match x {
        Step::Read(address) => Task::Read(address),
        Step::Write(address, word) => Task::Write(state::place_of(part, address), word),
        Step::Work(count) => Task::Work(count),
        Step::Supply(on) => Task::Supply(on),
        Step::Reset => Task::Reset,
    }
}

// What a number asks of a state that is well formed, with its counts, beside an array of the part's length.
fn task_of(part: Part, code: u64) -> Task
    ensures { result ≡ task_of None (geometry_of part) code }
{
    let Some(x) = decoded(code) else {
        return Task::End;
    };
    match state::step_refusal(part, x) {
        Some(e) => Task::Refused(e),
        None => allowed(part, x),
    }
}

// ---- the pieces of a state

// The control after a cycle that is told by its view: what is suspended, and the supply, no such cycle changes.
fn settled(c: Control, v: View) -> Control
    ensures { result ≡ settled_in c v }
{
    let after = v.control;
    Control {
        activity: Activity {
            setup: after.activity.setup,
            running: after.activity.running,
            ..c.activity
        },
        supply: c.supply,
        ..after
    }
}

// Whether there are at most eight numbers, each of which encodes a read: then the state after them is the state before
// them (`reads_leave` of specs/Reads). Of a longer list, what it costs to save the state is little beside the steps.
pub fn few_reads(steps: &[u64]) -> bool
    ensures { result ≡ few_reads steps.now }
{
    steps.len() <= 8 && steps.iter().all(|&code| code < 4294967296)
}

// A list on a device that is refused whatever the step is: each number that encodes a step is answered by that refusal,
// up to the first that encodes none. How many there are. (By places, here and in `run`: of what `zip` over two slices
// writes a proof knows nothing.)
fn refuse(refused: Refusal, steps: &[u64], answers: &mut [u64]) -> usize
    ensures { (s : State) (k : Counts) (xs : List ℕ) → Held (Some refused) s k xs → Played (holding s) k steps.now answers.old xs (record { played = result; device = holding s }) k answers.new xs }
{
    let n = steps.len().min(answers.len());
    for i in 0..n {
        let Some(_) = decoded(steps[i]) else {
            return i;
        };
        answers[i] = answer_code(Answer::Refused(refused));
    }
    n
}

// Plays the steps that the numbers encode, one after the other, and writes the answer of each into its place of the
// room; stops at the first number that encodes no step, and where the room ends. A list goes on with the device that is
// given back. What is refused whatever the step is, is tested once; the pieces of the state stand apart, so that the
// compiler keeps the control in registers, and each is changed where it stands.
pub fn run(
    device: Device,
    main: &mut [[u16; 16]; 16],
    small: &mut [u16; 4],
    steps: &[u64],
    answers: &mut [u64],
    array: &mut [u16],
) -> RunEnd
    ensures { Played device (lent main.old small.old) steps.now answers.old array.old result (lent main.new small.new) answers.new array.new }
{
    let State {
        part,
        mut banks,
        mut unprotected,
        mut control,
        mut buffer,
    } = device.state;
    let formed = state::formed_of(part, control, unprotected, buffer) & wear::shared_zero(main);
    let refused = state::refusal_beside(part, formed, array.len());
    let mut played = steps.len().min(answers.len());
    if let Some(e) = refused {
        played = refuse(e, steps, answers);
    } else {
        for i in 0..played {
            let task = task_of(part, steps[i]);
            let mut answer = Answer::Done;
            match task {
                Task::End => {
                    played = i;
                    break;
                }
                Task::Refused(e) => answer = Answer::Refused(e),
                Task::Read(address) => {
                    let location = geometry::location_of(part, address);
                    let bank = geometry::bank_at(part, address);
                    let mode = banks[bank as usize].mode;
                    answer = Answer::Word(reading::read_at(
                        part,
                        mode,
                        control,
                        &unprotected,
                        array,
                        location,
                        bank,
                    ));
                }
                Task::Write(p, word) => {
                    let change = writing::change_of(control.activity, control.supply, p, word);
                    match change {
                        Change::First(mode, x) => {
                            control.activity.setup = x;
                            banks[p.bank as usize] = Bank { mode };
                        }
                        Change::Activity(a) => control.activity = a,
                        Change::Ended(a) => {
                            control.activity = a;
                            control = state::end_running(control, &mut buffer);
                        }
                        Change::Data(x, at) => {
                            control.activity.setup = x;
                            banks[p.bank as usize] = Bank { mode: Mode::Status };
                            buffer::load(&mut buffer, at, word);
                        }
                        Change::View => {
                            let mode = banks[p.bank as usize].mode;
                            let on = protection::is_unprotected(&unprotected, p.block);
                            let v = writing::told_view(part, mode, on, control, p, word);
                            writing::load_buffer(part, control, p, word, v, &mut buffer);
                            control = settled(control, v);
                            banks[p.bank as usize] = Bank { mode: v.mode };
                            protection::set_block(&mut unprotected, p.block, v.unprotected);
                        }
                    }
                }
                Task::Work(count) => {
                    let was = control.activity.running;
                    let o = working::advance(part, was, &mut buffer, array, count);
                    let left = o.running;
                    wear::count_finished(main, small, was, left);
                    control.activity.running = left;
                    answer = Answer::Units(o.units);
                }
                Task::Supply(on) => control = state::switch_supply(control, on, &mut buffer),
                Task::Reset => {
                    let z = state::reset(State {
                        part,
                        banks,
                        unprotected,
                        control,
                        buffer,
                    });
                    banks = z.banks;
                    unprotected = z.unprotected;
                    control = z.control;
                    buffer = z.buffer;
                }
            }
            answers[i] = answer_code(answer);
        }
    }
    RunEnd {
        played,
        device: Device {
            state: State {
                part,
                banks,
                unprotected,
                control,
                buffer,
            },
        },
    }
}
