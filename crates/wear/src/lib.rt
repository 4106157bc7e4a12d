// The erase counts of the blocks (document 02, item 6), in memory that is lent: an array of arrays by bank and place,
// beside the four counts of the small blocks. Each function takes every count and number. What they mean is in specs/.
// (The two are no struct: C hands them over as two pointers, for a report to what stays and for a run to what may
// change.)
#![tactic(auto)]

ghost use Rattle.std.specs.Prelude.{◌≡◌};
ghost use Rattle.wear.specs.Counts.{lent, count_of, shared_zero, no_counts, with_count, one_more, counts_after, most_worn};
ghost use Rattle.wear.specs.Places.{StandsAt};

use semantics::Running;

// A block, and its count.
#[derive(Clone, Copy)]
pub struct Worn {
    pub block: u32,
    pub count: u32,
}

// ---- a count

// Where the count of a block stands: of a small block, or at a place of a row.
enum Place {
    Small(usize),
    Main(usize, usize),
}

// None of a number that is no block.
fn place_of(block: u32) -> Option<Place>
    ensures { StandsAt block result }
{
    match block {
        0..=3 => Some(Place::Small(block as usize)),
        4..=258 => {
            let at = block - 3;
            Some(Place::Main((at / 16) as usize, (at % 16) as usize))
        }
        _ => None,
    }
}

// The count of a block, 0 of a number that is no block.
pub fn count_of(main: &[[u16; 16]; 16], small: &[u16; 4], block: u32) -> u16
    ensures { result ≡ count_of (lent main.now small.now) block }
{
    match place_of(block) {
        Some(Place::Small(i)) => small[i],
        Some(Place::Main(row, i)) => main[row][i],
        None => 0,
    }
}

// Whether the place that the small blocks would share is 0.
pub fn shared_zero(main: &[[u16; 16]; 16]) -> bool
    ensures { result ≡ shared_zero main.now }
{
    main[0][0] == 0
}

// ---- one more

// Puts the count of a block; nothing for a number that is no block.
fn put_count(main: &mut [[u16; 16]; 16], small: &mut [u16; 4], block: u32, x: u16)
    ensures { lent main.new small.new ≡ with_count (lent main.old small.old) block x }
{
    match place_of(block) {
        Some(Place::Small(i)) => small[i] = x,
        Some(Place::Main(row, i)) => main[row][i] = x,
        None => {}
    }
}

// One erase of a block more; 65,535 stays.
pub fn add_one(main: &mut [[u16; 16]; 16], small: &mut [u16; 4], block: u32)
    ensures { lent main.new small.new ≡ one_more (lent main.old small.old) block }
{
    let n = count_of(main, small, block);
    put_count(main, small, block, n.saturating_add(1));
}

// Counts the erase that work has finished: `was` ran before it, and `left` runs after it.
pub fn count_finished(main: &mut [[u16; 16]; 16], small: &mut [u16; 4], was: Running, left: Running)
    ensures { lent main.new small.new ≡ counts_after was left (lent main.old small.old) }
{
    if let Running::Erase { block, .. } = was {
        if !operation::runs(left) {
            add_one(main, small, block);
        }
    }
}

// Power-up: all counts are 0.
pub fn clear(main: &mut [[u16; 16]; 16], small: &mut [u16; 4])
    ensures { lent main.new small.new ≡ no_counts }
{
    *main = [[0; 16]; 16];
    *small = [0; 4];
}

// ---- the most worn block

// The lowest of the blocks whose count is the greatest.
pub fn most_worn(main: &[[u16; 16]; 16], small: &[u16; 4]) -> u32
    ensures { result ≡ most_worn (lent main.now small.now) }
{
    // By a loop: `max_by_key` gives the highest number on a tie.
    let mut block = 0;
    let mut most = count_of(main, small, 0);
    for b in 1..259 {
        let n = count_of(main, small, b);
        if most < n {
            block = b;
            most = n;
        }
    }
    block
}
