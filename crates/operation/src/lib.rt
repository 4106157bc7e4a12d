// What is under way on a device: the tests of it, and its changes. Each function takes every value, well formed or not.
#![tactic(auto)]

ghost use Rattle.std.specs.Prelude.{Option, ◌≡◌};
ghost use Rattle.geometry.specs.declared.Geometry.{Geometry};
ghost use Rattle.geometry.specs.Blocks.{geometry_of};
ghost use Rattle.semantics.specs.State.{with_setup, with_running, runs, program_suspended, erase_suspended};
ghost use Rattle.semantics.specs.WellFormed.{pending, is_erase_setup, is_erase, erasing, running_alone, program_alone};
ghost use Rattle.semantics.specs.WellFormed.{erase_alone, erase_fits, stays_in, words_fit, buffer_fits, setup_fits};
ghost use Rattle.semantics.specs.WellFormed.{running_fits, program_fits, suspended_erase_fits, all_fit, running_apart};
ghost use Rattle.semantics.specs.WellFormed.{program_apart, apart, activity_formed};
ghost use Rattle.semantics.specs.WellFormed.{setup_places, running_places, program_places, places_used};
ghost use Rattle.semantics.specs.Reading.{runs_in};
ghost use Rattle.semantics.specs.Writing.{suspended, resumed_erase, resumed, accepts};
ghost use Rattle.operation.specs.Rest.{is_load, at_rest};

use geometry::Part;
use semantics::{Activity, Running, Setup, SuspendedErase, SuspendedProgram};

// ---- tests of one part of it

// Something runs.
pub fn runs(r: Running) -> bool
    ensures { result ≡ runs r }
{
    !matches!(r, Running::Idle)
}

pub fn program_suspended(p: SuspendedProgram) -> bool
    ensures { result ≡ program_suspended p }
{
    !matches!(p, SuspendedProgram::Nothing)
}

pub fn erase_suspended(e: Option<SuspendedErase>) -> bool
    ensures { result ≡ erase_suspended e }
{
    e.is_some()
}

// A set-up is pending.
pub fn pending(s: Setup) -> bool
    ensures { result ≡ pending s }
{
    !matches!(s, Setup::Nothing)
}

pub fn is_erase_setup(s: Setup) -> bool
    ensures { result ≡ is_erase_setup s }
{
    matches!(s, Setup::Erase)
}

pub fn is_erase(r: Running) -> bool
    ensures { result ≡ is_erase r }
{
    matches!(r, Running::Erase { .. })
}

// The suspended erase, if there is one, is of this block.
pub fn erasing(e: Option<SuspendedErase>, block: u32) -> bool
    ensures { result ≡ erasing e block }
{
    e.is_some_and(|e| e.block == block)
}

// ---- its changes

pub fn with_setup(a: Activity, s: Setup) -> Activity
    ensures { result ≡ with_setup a s }
{
    Activity { setup: s, ..a }
}

pub fn with_running(a: Activity, r: Running) -> Activity
    ensures { result ≡ with_running a r }
{
    Activity { running: r, ..a }
}

// What runs becomes suspended, with the words that it has done. (This and the next two change it in place: made anew,
// as above, it costs a write up to four instructions more.)
pub fn suspended(mut a: Activity) -> Activity
    ensures { result ≡ suspended a a.running }
{
    match a.running {
        Running::Idle => {}
        Running::Program { location, word } => {
            a.program = SuspendedProgram::Program { location, word };
        }
        Running::Erase { block, done } => a.erase = Some(SuspendedErase { block, done }),
        Running::Buffer { start, words, done } => {
            a.program = SuspendedProgram::Buffer { start, words, done };
        }
    }
    a.running = Running::Idle;
    a
}

// The suspended erase, if there is one, runs.
fn resumed_erase(mut a: Activity) -> Activity
    ensures { result ≡ resumed_erase a a.erase }
{
    if let Some(SuspendedErase { block, done }) = a.erase {
        a.running = Running::Erase { block, done };
        a.erase = None;
    }
    a
}

// The suspended program runs, or where there is none the suspended erase.
pub fn resumed(mut a: Activity) -> Activity
    ensures { result ≡ resumed a a.program }
{
    a.running = match a.program {
        SuspendedProgram::Nothing => return resumed_erase(a),
        SuspendedProgram::Program { location, word } => Running::Program { location, word },
        SuspendedProgram::Buffer { start, words, done } => Running::Buffer { start, words, done },
    };
    a.program = SuspendedProgram::Nothing;
    a
}

// A set-up is accepted.
#[tactic(auto, unfolding(semantics::specs::Writing::accepts))]
pub fn accepts(a: Activity, s: Setup) -> bool
    ensures { result ≡ accepts a s }
{
    let free = !runs(a.running) & !program_suspended(a.program);
    match s {
        Setup::Program | Setup::Lock | Setup::BufferCount { .. } => free,
        Setup::Erase => free & !erase_suspended(a.erase),
        Setup::Nothing | Setup::BufferFirst { .. } | Setup::BufferWords { .. } => false,
    }
}

// ---- when it is well formed

#[tactic(auto, unfolding(semantics::specs::WellFormed::running_alone))]
fn running_alone(a: Activity) -> bool
    ensures { result ≡ running_alone a }
{
    !runs(a.running) | (!pending(a.setup) & !program_suspended(a.program))
}

#[tactic(auto, unfolding(semantics::specs::WellFormed::program_alone))]
fn program_alone(a: Activity) -> bool
    ensures { result ≡ program_alone a }
{
    !program_suspended(a.program) | !pending(a.setup)
}

#[tactic(auto, unfolding(semantics::specs::WellFormed::erase_alone))]
fn erase_alone(a: Activity) -> bool
    ensures { result ≡ erase_alone a }
{
    !erase_suspended(a.erase) | (!is_erase(a.running) & !is_erase_setup(a.setup))
}

// A block of the part, of which fewer words are done than it has.
#[tactic(auto, unfolding(semantics::specs::WellFormed::erase_fits))]
fn erase_fits(part: Part, block: u32, done: u32) -> bool
    ensures { result ≡ erase_fits (geometry_of part) block done }
{
    (block < geometry::block_count(part)) & (done < geometry::block_size(part, block))
}

// So many words from a location on end within a block. Compared in 64 bits: the sum may not fit.
pub fn stays_in(part: Part, block: u32, location: u32, words: u32) -> bool
    ensures { result ≡ stays_in (geometry_of part) block location words }
{
    let first = u64::from(geometry::block_start(part, block));
    let end = first + u64::from(geometry::block_size(part, block));
    u64::from(location) + u64::from(words) <= end
}

// Words from a location on: they lie in one block of the part, and the buffer holds so many.
#[tactic(auto, unfolding(semantics::specs::WellFormed::words_fit))]
fn words_fit(part: Part, start: u32, words: u32) -> bool
    ensures { result ≡ words_fit (geometry_of part) start words }
{
    let block = geometry::block_of(part, start);
    (start < geometry::length_of(part)) & stays_in(part, block, start, words) & (words <= 32)
}

// The same, and the words are more than are done.
#[tactic(auto, unfolding(semantics::specs::WellFormed::buffer_fits))]
fn buffer_fits(part: Part, start: u32, words: u32, done: u32) -> bool
    ensures { result ≡ buffer_fits (geometry_of part) start words done }
{
    words_fit(part, start, words) & (done < words)
}

// A load: before its first word its words need not fit the block.
#[tactic(auto, unfolding(semantics::specs::WellFormed::setup_fits))]
fn setup_fits(part: Part, s: Setup) -> bool
    ensures { result ≡ setup_fits (geometry_of part) s }
{
    match s {
        Setup::BufferCount { block } => block < geometry::block_count(part),
        Setup::BufferFirst { block, words } => {
            (block < geometry::block_count(part)) & (0 < words) & (words <= 32)
        }
        Setup::BufferWords { start, words, due } => buffer_fits(part, start, words, due),
        Setup::Nothing | Setup::Program | Setup::Erase | Setup::Lock => true,
    }
}

// Inlined at its three calls: as calls they make the test of what is under way a quarter longer.
#[tactic(auto, unfolding(semantics::specs::WellFormed::running_fits))]
#[inline(always)]
fn running_fits(part: Part, r: Running) -> bool
    ensures { result ≡ running_fits (geometry_of part) r }
{
    match r {
        Running::Idle => true,
        Running::Program { location, .. } => location < geometry::length_of(part),
        Running::Erase { block, done } => erase_fits(part, block, done),
        Running::Buffer { start, words, done } => buffer_fits(part, start, words, done),
    }
}

// What is suspended, as it runs once it is resumed: it fits the part, lies apart and uses places as that does.
#[tactic(auto, unfolding(semantics::specs::WellFormed::running_fits, semantics::specs::WellFormed::program_fits, semantics::specs::WellFormed::running_apart, semantics::specs::WellFormed::program_apart, semantics::specs::WellFormed::running_places, semantics::specs::WellFormed::program_places))]
fn program_again(p: SuspendedProgram) -> Running
    ensures fits { (g : Geometry) → running_fits g result ≡ program_fits g p }
    ensures apart { (g : Geometry) (e : Option SuspendedErase) → running_apart g e result ≡ program_apart g e p }
    ensures places { running_places result ≡ program_places p }
{
    match p {
        SuspendedProgram::Nothing => Running::Idle,
        SuspendedProgram::Program { location, word } => Running::Program { location, word },
        SuspendedProgram::Buffer { start, words, done } => Running::Buffer { start, words, done },
    }
}

#[tactic(auto, unfolding(semantics::specs::WellFormed::running_fits, semantics::specs::WellFormed::suspended_erase_fits))]
fn erase_again(e: Option<SuspendedErase>) -> Running
    ensures { (g : Geometry) → running_fits g result ≡ suspended_erase_fits g e }
{
    match e {
        None => Running::Idle,
        Some(SuspendedErase { block, done }) => Running::Erase { block, done },
    }
}

// Locations and blocks are of the part.
#[tactic(auto, unfolding(semantics::specs::WellFormed::all_fit))]
fn all_fit(part: Part, a: Activity) -> bool
    ensures { result ≡ all_fit (geometry_of part) a }
{
    setup_fits(part, a.setup)
        & running_fits(part, a.running)
        & running_fits(part, program_again(a.program))
        & running_fits(part, erase_again(a.erase))
}

// A program that runs beside a suspended erase lies in another block.
#[tactic(auto, unfolding(semantics::specs::WellFormed::running_apart))]
fn running_apart(part: Part, e: Option<SuspendedErase>, r: Running) -> bool
    ensures { result ≡ running_apart (geometry_of part) e r }
{
    match r {
        Running::Idle | Running::Erase { .. } => true,
        Running::Program {
            location: start,
            ..
        }
        | Running::Buffer { start, .. } => { !erasing(e, geometry::block_of(part, start)) }
    }
}

// The same of one that is suspended too.
#[tactic(auto, unfolding(semantics::specs::WellFormed::apart))]
fn apart(part: Part, a: Activity) -> bool
    ensures { result ≡ apart (geometry_of part) a }
{
    running_apart(part, a.erase, a.running) & running_apart(part, a.erase, program_again(a.program))
}

#[tactic(auto, unfolding(semantics::specs::WellFormed::activity_formed))]
pub fn activity_formed(part: Part, a: Activity) -> bool
    ensures { result ≡ activity_formed (geometry_of part) a }
{
    running_alone(a) & program_alone(a) & erase_alone(a) & all_fit(part, a) & apart(part, a)
}

// ---- when that needs no further test

// A load stands.
fn is_load(s: Setup) -> bool
    ensures { result ≡ is_load s }
{
    matches!(
        s,
        Setup::BufferCount { .. } | Setup::BufferFirst { .. } | Setup::BufferWords { .. }
    )
}

// Nothing runs, is suspended or is loaded; a set-up of two cycles may be pending. So it is well formed and uses no
// place of the buffer, and these four tests are all that it needs.
pub fn at_rest(a: Activity) -> bool
    ensures { result ≡ at_rest a }
{
    !is_load(a.setup) & !runs(a.running) & !program_suspended(a.program) & !erase_suspended(a.erase)
}

// ---- the places of the buffer that it uses

#[tactic(auto, unfolding(semantics::specs::WellFormed::setup_places))]
fn setup_places(s: Setup) -> u32
    ensures { result ≡ setup_places s }
{
    match s {
        Setup::BufferWords { words, .. } => words,
        _ => 0,
    }
}

#[tactic(auto, unfolding(semantics::specs::WellFormed::running_places))]
fn running_places(r: Running) -> u32
    ensures { result ≡ running_places r }
{
    match r {
        Running::Buffer { words, .. } => words,
        _ => 0,
    }
}

// The sum of the three in 64 bits: it may not fit 32.
#[tactic(auto, unfolding(semantics::specs::WellFormed::places_used))]
pub fn places_used(a: Activity) -> u64
    ensures { result ≡ places_used a }
{
    u64::from(setup_places(a.setup))
        + u64::from(running_places(a.running))
        + u64::from(running_places(program_again(a.program)))
}

// ---- where it runs

// What runs is in this bank.
#[tactic(auto, unfolding(semantics::specs::Reading::runs_in))]
pub fn runs_in(part: Part, r: Running, bank: u32) -> bool
    ensures { result ≡ runs_in (geometry_of part) r bank }
{
    match r {
        Running::Idle => false,
        Running::Program {
            location: start,
            ..
        }
        | Running::Buffer { start, .. } => { geometry::bank_of(part, start) == bank }
        Running::Erase { block, .. } => geometry::bank_of_block(part, block) == bank,
    }
}
