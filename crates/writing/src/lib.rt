// What a write makes of what it sees of a state: the first and the second cycles of the commands (document 01, "Write,
// address, data."), and the cycles of a buffer program's load (document 02, item 1), with what they make of the buffer.
// The array is not touched. Each function takes every view and number.
#![tactic(auto)]

ghost use Rattle.std.specs.Prelude.{◌≡◌, ◌-◌, cond, Some, None};
ghost use Rattle.geometry.specs.Blocks.{geometry_of};
ghost use Rattle.semantics.specs.Supply.{ended};
ghost use Rattle.semantics.specs.View.{with_control, with_activity, with_mode, raise};
ghost use Rattle.semantics.specs.Writing.{command_of, pend, clear_status, first_cycle, program_runs, erase_cycle, lock_command_of, lock_cycle, settle, wrong, loads, count_right, first_right, later_right, confirm_right, confirm_cycle, words_cycle, cycle, words_loaded, held_after, loaded, cycle_at, written};
ghost use Rattle.writing.specs.Changes.{set_up_change, resume_change, command_change, word_change, second_change, change_of, told_cycle};

use geometry::Part;
use semantics::{
    Activity, Command, Control, Flags, LockCommand, Mode, Place, Running, Setup, State,
    SuspendedProgram, View,
};

// What a write changes of a state, where that is little: the mode of the addressed bank and the set-up; or what is
// under way, which of a write that is ignored is as it was; or the same, and what runs then ends for want of supply;
// or, in a load's data cycle after its first, the set-up and the buffer's word at a place, and the bank shows status.
// Any other write is told by its view: 50h, and every other cycle that goes on with a set-up or ends it.
#[derive(Clone, Copy)]
pub enum Change {
    First(Mode, Setup),
    Activity(Activity),
    Ended(Activity),
    Data(Setup, u32),
    View,
}

// ---- a view changed

fn with_activity(mut v: View, x: Activity) -> View
    ensures { result ≡ with_activity v x }
{
    v.control.activity = x;
    v
}

fn with_mode(v: View, x: Mode) -> View
    ensures { result ≡ with_mode v x }
{
    View { mode: x, ..v }
}

// The view with what runs ended.
fn with_ended(v: View) -> View
    ensures { result ≡ with_control v (ended v.control) }
{
    View {
        control: state::ended(v.control),
        ..v
    }
}

// The view with these flags set beside those that were.
fn with_raised(mut v: View, x: Flags) -> View
    ensures { result ≡ raise v x }
{
    v.control.flags = state::join(v.control.flags, x);
    v
}

// ---- the first cycle

// The command that a number is in a first cycle. (An `impl From<u16>` would have to stand in semantics, which has no
// code: DECISIONS 1.)
#[tactic(auto, unfolding(semantics::specs::Writing::command_of))]
fn command_of(c: u16) -> Command
    ensures { result ≡ command_of c }
{
    match c {
        0xff => Command::ReadArray,
        0x70 => Command::ReadStatus,
        0x90 => Command::ReadSignature,
        0x98 => Command::ReadQuery,
        0xb0 => Command::Suspend,
        0xd0 => Command::Resume,
        0x50 => Command::ClearStatus,
        0x10 | 0x40 => Command::SetUpProgram,
        0x60 => Command::SetUpLock,
        0x20 => Command::SetUpErase,
        0xe8 => Command::SetUpBuffer,
        _ => Command::Unknown,
    }
}

// This set-up is pending from here on, with the bank of the cycle's own address in status mode.
fn pend(v: View, x: Setup) -> View
    ensures { result ≡ pend v x }
{
    let activity = operation::with_setup(v.control.activity, x);
    with_mode(with_activity(v, activity), Mode::Status)
}

#[tactic(auto, unfolding(semantics::specs::Writing::clear_status))]
fn clear_status(mut v: View) -> View
    ensures { result ≡ clear_status v }
{
    if !operation::runs(v.control.activity.running) {
        v.control.flags = state::no_flags();
    }
    v
}

// A set-up cycle changes the set-up; one that is not accepted is ignored.
fn set_up_change(a: Activity, x: Setup) -> Change
    ensures { result ≡ set_up_change a x }
{
    if operation::accepts(a, x) {
        Change::First(Mode::Status, x)
    } else {
        Change::Activity(a)
    }
}

// D0h resumes what is suspended, or without supply ends it.
fn resume_change(a: Activity, supply: bool) -> Change
    ensures { result ≡ resume_change a supply }
{
    if operation::runs(a.running) {
        Change::Activity(a)
    } else if supply {
        Change::Activity(operation::resumed(a))
    } else {
        Change::Ended(operation::resumed(a))
    }
}

// What the first cycle at a place changes: a load is of the block there.
fn command_change(a: Activity, supply: bool, p: Place, c: Command) -> Change
    ensures { result ≡ command_change a supply p c }
{
    match c {
        Command::ReadArray => Change::First(Mode::Array, a.setup),
        Command::ReadStatus => Change::First(Mode::Status, a.setup),
        Command::ReadSignature => Change::First(Mode::Signature, a.setup),
        Command::ReadQuery => Change::First(Mode::Query, a.setup),
        Command::Suspend => Change::Activity(operation::suspended(a)),
        Command::Resume => resume_change(a, supply),
        Command::ClearStatus => Change::View,
        Command::SetUpProgram => set_up_change(a, Setup::Program),
        Command::SetUpErase => set_up_change(a, Setup::Erase),
        Command::SetUpLock => set_up_change(a, Setup::Lock),
        Command::SetUpBuffer => set_up_change(a, Setup::BufferCount { block: p.block }),
        Command::Unknown => Change::Activity(a),
    }
}

// The first cycle at a place.
fn first_cycle(v: View, p: Place, c: Command) -> View
    ensures { result ≡ first_cycle v p c }
{
    match command_change(v.control.activity, v.control.supply, p, c) {
        Change::First(mode, x) => with_mode(pend(v, x), mode),
        Change::Activity(x) => with_activity(v, x),
        Change::Ended(x) => with_ended(with_activity(v, x)),
        Change::Data(x, _) => pend(v, x),
        Change::View => clear_status(v),
    }
}

// ---- the second cycle

// A program at the place runs, or flags say why not.
#[tactic(auto, unfolding(semantics::specs::Writing::program_runs))]
fn program_runs(v: View, p: Place, r: Running) -> View
    ensures { result ≡ program_runs v p r }
{
    let a = v.control.activity;
    if !v.control.supply {
        with_raised(v, state::flags_of(false, true, true, false))
    } else if !v.unprotected {
        with_raised(v, state::flags_of(false, true, false, true))
    } else if operation::erasing(a.erase, p.block) {
        with_raised(v, state::flags_of(false, true, false, false))
    } else {
        with_activity(v, operation::with_running(a, r))
    }
}

// After an erase set-up: the block is erased where the command confirms it, or flags say why not.
#[tactic(auto, unfolding(semantics::specs::Writing::erase_cycle))]
fn erase_cycle(v: View, p: Place, c: u16) -> View
    ensures { result ≡ erase_cycle v p c }
{
    if c != 0xd0 {
        with_raised(v, state::flags_of(true, true, false, false))
    } else if !v.control.supply {
        with_raised(v, state::flags_of(true, false, true, false))
    } else if !v.unprotected {
        with_raised(v, state::flags_of(true, false, false, true))
    } else {
        let running = Running::Erase {
            block: p.block,
            done: 0,
        };
        with_activity(v, operation::with_running(v.control.activity, running))
    }
}

// The command that a number is after a lock set-up; no `impl From<u16>`, as for `command_of`.
#[tactic(auto, unfolding(semantics::specs::Writing::lock_command_of))]
fn lock_command_of(c: u16) -> LockCommand
    ensures { result ≡ lock_command_of c }
{
    match c {
        0x01 => LockCommand::Protect,
        0xd0 => LockCommand::Unprotect,
        0x03 => LockCommand::Configure,
        _ => LockCommand::Unknown,
    }
}

// After a lock set-up. The configuration is the address's low 16 bits, whatever the location is, without the reserved
// ones.
#[tactic(auto, unfolding(semantics::specs::Writing::lock_cycle))]
fn lock_cycle(v: View, p: Place, c: LockCommand) -> View
    ensures { result ≡ lock_cycle v p c }
{
    match c {
        LockCommand::Protect => View {
            unprotected: false,
            ..v
        },
        LockCommand::Unprotect => View {
            unprotected: true,
            ..v
        },
        LockCommand::Configure => {
            let configuration = state::without_reserved((p.address % 65536) as u16);
            View {
                control: Control {
                    configuration,
                    ..v.control
                },
                ..v
            }
        }
        LockCommand::Unknown => with_raised(v, state::flags_of(true, true, false, false)),
    }
}

// The end of the set-up, with the bank of the cycle's own address in status mode.
#[tactic(auto, unfolding(semantics::specs::Writing::settle))]
fn settle(v: View) -> View
    ensures { result ≡ settle v }
{
    pend(v, Setup::Nothing)
}

// ---- the cycles of a load

// A wrong cycle: the load ends with SR5 and SR4.
fn wrong(v: View) -> View
    ensures { result ≡ wrong v }
{
    with_raised(settle(v), state::flags_of(true, true, false, false))
}

// The load goes on as x where the cycle is right.
#[tactic(auto, unfolding(semantics::specs::Writing::loads))]
fn loads(right: bool, v: View, x: Setup) -> View
    ensures { result ≡ loads right v x }
{
    if right { pend(v, x) } else { wrong(v) }
}

// The count is the whole word.
#[tactic(auto, unfolding(semantics::specs::Writing::count_right))]
fn count_right(block: u32, p: Place, word: u16) -> bool
    ensures { result ≡ count_right block p word }
{
    p.block == block && word <= 31
}

// So many words from the place on stay in the block.
#[tactic(auto, unfolding(semantics::specs::Writing::first_right))]
fn first_right(part: Part, block: u32, words: u32, p: Place) -> bool
    ensures { result ≡ first_right (geometry_of part) block words p }
{
    p.block == block && operation::stays_in(part, block, p.location, words)
}

// Which of the words the place is, where it is one of them.
#[tactic(auto, unfolding(semantics::specs::Writing::later_right))]
fn later_place(start: u32, words: u32, p: Place) -> Option<u32>
    ensures { result ≡ cond (later_right start words p) (Some (p.location - start)) None }
{
    p.location.checked_sub(start).filter(|&i| i < words)
}

// D0h, in the block of the words.
#[tactic(auto, unfolding(semantics::specs::Writing::confirm_right))]
fn confirm_right(part: Part, start: u32, p: Place, word: u16) -> bool
    ensures { result ≡ confirm_right (geometry_of part) start p word }
{
    word % 256 == 0xd0 && p.block == geometry::block_of(part, start)
}

// Where the load is confirmed, its words are programmed, or flags say why not.
#[tactic(auto, unfolding(semantics::specs::Writing::confirm_cycle))]
fn confirm_cycle(part: Part, v: View, start: u32, words: u32, p: Place, word: u16) -> View
    ensures { result ≡ confirm_cycle (geometry_of part) v start words p word }
{
    if confirm_right(part, start, p, word) {
        let running = Running::Buffer {
            start,
            words,
            done: 0,
        };
        program_runs(settle(v), p, running)
    } else {
        wrong(v)
    }
}

// A cycle after the first data cycle: the confirming one where no data cycle is due.
#[tactic(auto, unfolding(semantics::specs::Writing::words_cycle))]
fn words_cycle(part: Part, v: View, start: u32, words: u32, due: u32, p: Place, word: u16) -> View
    ensures { result ≡ words_cycle (geometry_of part) v start words due p word }
{
    if due == 0 {
        confirm_cycle(part, v, start, words, p, word)
    } else {
        let next = Setup::BufferWords {
            start,
            words,
            due: due - 1,
        };
        loads(later_place(start, words, p).is_some(), v, next)
    }
}

// ---- a write

// A cycle that is told by its view, at a place: by the set-up that is pending, or 50h where none is. A program and a
// load take the whole word, any other its low byte.
#[tactic(auto, unfolding(semantics::specs::Writing::cycle))]
fn told_cycle(part: Part, v: View, p: Place, word: u16) -> View
    ensures { result ≡ told_cycle (geometry_of part) v v.control.activity.setup p word }
{
    let c = word % 256;
    match v.control.activity.setup {
        Setup::Nothing => clear_status(v),
        Setup::Program => {
            let location = p.location;
            program_runs(settle(v), p, Running::Program { location, word })
        }
        Setup::Erase => erase_cycle(settle(v), p, c),
        Setup::Lock => lock_cycle(settle(v), p, lock_command_of(c)),
        Setup::BufferCount { block } => {
            let words = u32::from(word) + 1;
            loads(
                count_right(block, p, word),
                v,
                Setup::BufferFirst { block, words },
            )
        }
        Setup::BufferFirst { block, words } => {
            let next = Setup::BufferWords {
                start: p.location,
                words,
                due: words.saturating_sub(1),
            };
            loads(first_right(part, block, words, p), v, next)
        }
        Setup::BufferWords { start, words, due } => {
            words_cycle(part, v, start, words, due, p, word)
        }
    }
}

// What a data cycle changes at a place, after a load's first: where it is due and right, the set-up and a word.
fn word_change(start: u32, words: u32, due: u32, p: Place) -> Change
    ensures { result ≡ word_change start words due p }
{
    match later_place(start, words, p) {
        Some(i) if due != 0 => {
            let next = Setup::BufferWords {
                start,
                words,
                due: due - 1,
            };
            Change::Data(next, i)
        }
        _ => Change::View,
    }
}

// What a cycle that goes on with a set-up, or ends it, changes at a place. (A match over all the set-ups is compiled to
// a jump of its own, which a load's data cycle pays.)
fn second_change(x: Setup, p: Place) -> Change
    ensures { result ≡ second_change x p }
{
    let Setup::BufferWords { start, words, due } = x else {
        return Change::View;
    };
    word_change(start, words, due, p)
}

// What a write of a word changes at a place.
pub fn change_of(a: Activity, supply: bool, p: Place, word: u16) -> Change
    ensures { result ≡ change_of a supply p word }
{
    if operation::pending(a.setup) {
        second_change(a.setup, p)
    } else {
        command_change(a, supply, p, command_of(word % 256))
    }
}

// What such a cycle makes of what it sees: a mode, a block's protection and the control. Of a write that is no such
// cycle (`Change`) it says nothing: with no set-up pending it is that of 50h.
pub fn told_view(
    part: Part,
    mode: Mode,
    unprotected: bool,
    control: Control,
    p: Place,
    word: u16,
) -> View
    ensures { result ≡ told_cycle (geometry_of part) (record { mode = mode; unprotected = unprotected; control = control }) control.activity.setup p word }
{
    let v = View {
        mode,
        unprotected,
        control,
    };
    told_cycle(part, v, p, word)
}

// The cycle at a place.
#[tactic(auto, unfolding(semantics::specs::Writing::cycle))]
fn cycle(part: Part, v: View, p: Place, word: u16) -> View
    ensures { result ≡ cycle (geometry_of part) v v.control.activity.setup p word }
{
    if operation::pending(v.control.activity.setup) {
        told_cycle(part, v, p, word)
    } else {
        first_cycle(v, p, command_of(word % 256))
    }
}

// What a write of a word makes of what it sees of the state at a place.
fn view_after(s: State, p: Place, word: u16) -> View
    ensures { result ≡ cycle_at s p word }
{
    cycle(s.part, state::view_at(s, p), p, word)
}

// What a cycle after the first data cycle makes of the buffer.
#[tactic(auto, unfolding(semantics::specs::Writing::words_loaded, semantics::specs::Writing::kept_if))]
fn load_words(
    start: u32,
    words: u32,
    due: u32,
    p: Place,
    word: u16,
    running: Running,
    buffer: &mut [u16; 32],
)
    ensures { buffer.new ≡ words_loaded start words due p word running buffer.old }
{
    if due == 0 {
        buffer::keep_if(buffer, operation::runs(running));
    } else if let Some(i) = later_place(start, words, p) {
        buffer::load(buffer, i, word);
    } else {
        buffer::keep_if(buffer, false);
    }
}

// What becomes of the words of a buffer program that was suspended: they are in use where it still is, or runs. Only
// D0h without supply ends one.
#[tactic(auto, unfolding(semantics::specs::Writing::held_after))]
fn hold_buffer(p: SuspendedProgram, a: Activity, buffer: &mut [u16; 32])
    ensures { buffer.new ≡ held_after p a buffer.old }
{
    if matches!(p, SuspendedProgram::Buffer { .. }) {
        let used = operation::program_suspended(a.program) || operation::runs(a.running);
        buffer::keep_if(buffer, used);
    }
}

// What a cycle at a place makes of the buffer, from the control before it to the view after it. The buffer stands where
// it is: a cycle that is no load's does not copy it.
#[tactic(auto, unfolding(semantics::specs::Writing::loaded))]
pub fn load_buffer(part: Part, c: Control, p: Place, word: u16, v: View, buffer: &mut [u16; 32])
    ensures { buffer.new ≡ loaded (geometry_of part) c.activity.setup p word v.control.activity.running buffer.old }
{
    match c.activity.setup {
        Setup::BufferFirst { block, words } if first_right(part, block, words, p) => {
            *buffer = buffer::first_loaded(words, word);
        }
        Setup::BufferWords { start, words, due } => {
            let running = v.control.activity.running;
            load_words(start, words, due, p, word, running, buffer);
        }
        _ => {}
    }
}

// The state after a write of a word to an address.
#[tactic(auto, unfolding(semantics::specs::Writing::written, semantics::specs::Writing::written_at))]
pub fn written(s: State, address: u32, word: u16) -> State
    ensures { result ≡ written s address word }
{
    let p = state::place_of(s.part, address);
    let v = view_after(s, p, word);
    let mut next = state::with_view(s, p, v);
    load_buffer(s.part, s.control, p, word, v, &mut next.buffer);
    hold_buffer(
        s.control.activity.program,
        v.control.activity,
        &mut next.buffer,
    );
    next
}
