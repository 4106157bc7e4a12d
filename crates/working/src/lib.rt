// The work on the borrowed array: units of what runs, at every location.
#![tactic(auto)]

ghost use Rattle.std.specs.Prelude.{◌≡◌, List, ℕ, ◌+◌, ◌-◌, min};
ghost use Rattle.geometry.specs.declared.Geometry.{Geometry};
ghost use Rattle.geometry.specs.Blocks.{geometry_of};
ghost use Rattle.semantics.specs.Working.{units_done, array_after, buffer_after, worked_on};
ghost use Rattle.working.specs.Array.{anded, filled, anded_run};
ghost use Rattle.working.specs.Progress.{progress_of};

use geometry::Part;
use semantics::{Control, Running, Worked};

// What runs after work, and the units that were done.
#[derive(Clone, Copy)]
pub struct Progress {
    pub running: Running,
    pub units: u32,
}

// The lesser of two.
pub fn least(a: usize, b: usize) -> usize
    ensures { result ≡ min a b }
{
    a.min(b)
}

// The word anded into the one at a place; nothing where the array has no such place. By index, since of a word that is
// written through `get_mut` a proof knows nothing.
#[tactic(auto, using(crate::specs::Array::anded_set, crate::specs::Array::anded_none))]
fn and_word(array: &mut [u16], at: usize, word: u16)
    ensures { array.new ≡ anded array.old at word }
{
    if at < array.len() {
        array[at] &= word;
    }
}

// FFFFh at each place from `from` that is below `to` and in the array. The loop is kept bare, so that the compiler can
// make one block store of it: `fill` of the slice stores the last word apart, which is 12 instructions a call more.
fn fill(array: &mut [u16], from: usize, to: usize)
    ensures { array.new ≡ filled array.old from to }
{
    for i in from..least(to, array.len()) {
        array[i] = 0xffff;
    }
}

// The words of the buffer from `from` on that are below `to`, each anded into the one so far from `start`; nothing
// where the buffer or the array has no such place. By index: the two slices zipped take 43 instructions a call more at
// one word, and of the words written through the iterator a proof knows nothing.
fn and_run(array: &mut [u16], start: u32, buffer: &[u16], from: usize, to: usize)
    ensures { array.new ≡ anded_run array.old start buffer.now from to }
{
    for at in from..least(to, buffer.len()) {
        and_word(array, start as usize + at, buffer[at]);
    }
}

// ---- units of each kind of operation

// A program's one unit.
#[tactic(auto, using(crate::specs::Progress::program_none, crate::specs::Progress::program_ends, crate::specs::Array::program_undone, crate::specs::Array::program_done))]
fn program_unit(location: u32, word: u16, array: &mut [u16], n: u32) -> Progress
    ensures progress { (g : Geometry) → result ≡ progress_of g (Running.Program location word) n }
    ensures array { (g : Geometry) (bs : List ℕ) → array.new ≡ array_after g bs (Running.Program location word) result.units array.old }
{
    if n == 0 {
        Progress {
            running: Running::Program { location, word },
            units: 0,
        }
    } else {
        and_word(array, location as usize, word);
        Progress {
            running: Running::Idle,
            units: 1,
        }
    }
}

// Units of an erase.
#[tactic(auto, using(crate::specs::Progress::erase_goes_on, crate::specs::Progress::erase_ends, crate::specs::Array::erase_done))]
fn erase_units(part: Part, block: u32, done: u32, array: &mut [u16], n: u32) -> Progress
    ensures progress { result ≡ progress_of (geometry_of part) (Running.Erase block done) n }
    ensures array { (bs : List ℕ) → array.new ≡ array_after (geometry_of part) bs (Running.Erase block done) result.units array.old }
{
    let size = geometry::block_size(part, block);
    let units = n.min(size.saturating_sub(done));
    let from = geometry::block_start(part, block) as usize + done as usize;
    fill(array, from, from + units as usize);
    let done = done + units;
    let running = if done < size {
        Running::Erase { block, done }
    } else {
        Running::Idle
    };
    Progress { running, units }
}

// Units of a buffer program; the buffer is released where it ends.
#[tactic(auto, using(crate::specs::Progress::buffer_goes_on, crate::specs::Progress::buffer_ends, crate::specs::Array::buffer_done), unfolding(semantics::specs::Working::buffer_after, semantics::specs::Writing::kept_if))]
fn buffer_units(
    start: u32,
    words: u32,
    done: u32,
    buffer: &mut [u16; 32],
    array: &mut [u16],
    n: u32,
) -> Progress
    ensures progress { (g : Geometry) → result ≡ progress_of g (Running.Buffer start words done) n }
    ensures buffer { buffer.new ≡ buffer_after (Running.Buffer start words done) result.running buffer.old }
    ensures array { (g : Geometry) → array.new ≡ array_after g buffer.old (Running.Buffer start words done) result.units array.old }
{
    let units = n.min(words.saturating_sub(done));
    let from = done as usize;
    and_run(array, start, buffer, from, from + units as usize);
    let done = done + units;
    if done < words {
        Progress {
            running: Running::Buffer { start, words, done },
            units,
        }
    } else {
        buffer::keep_if(buffer, false);
        Progress {
            running: Running::Idle,
            units,
        }
    }
}

// ---- work

// Up to n units of what runs. The buffer is borrowed, so that work on anything but a buffer program does not copy it.
#[tactic(auto, using(crate::specs::Progress::idle_progress, crate::specs::Array::idle_done), unfolding(semantics::specs::Working::buffer_after))]
pub fn advance(
    part: Part,
    r: Running,
    buffer: &mut [u16; 32],
    array: &mut [u16],
    n: u32,
) -> Progress
    ensures progress { result ≡ progress_of (geometry_of part) r n }
    ensures buffer { buffer.new ≡ buffer_after r result.running buffer.old }
    ensures array { array.new ≡ array_after (geometry_of part) buffer.old r result.units array.old }
{
    match r {
        Running::Idle => Progress {
            running: Running::Idle,
            units: 0,
        },
        Running::Program { location, word } => program_unit(location, word, array, n),
        Running::Erase { block, done } => erase_units(part, block, done, array, n),
        Running::Buffer { start, words, done } => {
            buffer_units(start, words, done, buffer, array, n)
        }
    }
}

// The same on the control.
#[tactic(auto, unfolding(semantics::specs::Working::worked_on))]
pub fn work(part: Part, mut c: Control, buffer: &mut [u16; 32], array: &mut [u16], n: u32) -> Worked
    ensures worked { result ≡ worked_on (geometry_of part) c n }
    ensures buffer { buffer.new ≡ buffer_after c.activity.running result.control.activity.running buffer.old }
    ensures array { array.new ≡ array_after (geometry_of part) buffer.old c.activity.running (units_done (geometry_of part) c.activity.running n) array.old }
{
    let progress = advance(part, c.activity.running, buffer, array, n);
    c.activity = operation::with_running(c.activity, progress.running);
    Worked {
        control: c,
        units: progress.units,
    }
}
