// The words, blocks and banks of a part: document 01, "Words, blocks, banks".
// Each public function takes every number: one that is no block, bank or location has the answer that its definition
// gives it.
#![tactic(auto)]

ghost use Rattle.std.specs.Prelude.{◌≡◌, true, cond, ◌+◌, ◌-◌, ◌<◌, ◌≤◌, ◌⊎◌, IfOk, IfErr};
ghost use Rattle.geometry.specs.Blocks.{geometry_of, words, blocks, location, mirror, block_from, block_of, bank_of, size_of, start_of, bank_start, block_offset, bank_offset, bank_of_block, Sound, part_numbered, part_named, lookup_of};
ghost use Rattle.geometry.specs.Bits.{unit_bits, small_bits, bank_bits, turned};
ghost use Rattle.geometry.specs.Table.{tied, not_above, Rises, scale};

use refusal::Refusal;

// The four parts: full or bench size, with the small blocks at the bottom or at the top.
#[derive(Clone, Copy)]
pub enum Part {
    FullBottom,
    FullTop,
    BenchBottom,
    BenchTop,
}

// What a part's rules depend on.
#[derive(Clone, Copy)]
pub struct Geometry {
    // The words of a main block.
    pub unit: u32,
    // The small blocks, which share the first main-size place.
    pub smalls: u32,
    // The main-size places of the array.
    pub places: u32,
    // The main-size places of a bank.
    pub group: u32,
    // Whether the small blocks are at the top.
    pub top: bool,
}

// Where an address lies.
#[derive(Clone, Copy)]
pub struct Located {
    pub block: u32,
    pub bank: u32,
}

// Whether the small blocks are at the top. A test of the geometry's own `top` would be compiled to a jump by a table.
fn is_top(part: Part) -> bool
    ensures { result ≡ (geometry_of part).top }
{
    matches!(part, Part::FullTop | Part::BenchTop)
}

// The geometry of a part.
pub fn geometry_of(part: Part) -> Geometry
    ensures value { result ≡ geometry_of part }
    ensures sound { Sound result }
{
    Geometry {
        unit: match part {
            Part::FullBottom | Part::FullTop => 65536,
            Part::BenchBottom | Part::BenchTop => 64,
        },
        smalls: 4,
        places: 256,
        group: 16,
        top: is_top(part),
    }
}

// The words of the part's array.
pub fn length_of(part: Part) -> u32
    ensures value { result ≡ words (geometry_of part) }
    ensures positive { 0 < result }
    ensures limit { result ≤ 16777216 }
{
    let g = geometry_of(part);
    g.places * g.unit
}

// The number of the part's blocks.
pub fn block_count(part: Part) -> u32
    ensures value { result ≡ blocks (geometry_of part) }
    ensures number { result ≡ 259 }
{
    let g = geometry_of(part);
    g.places + (g.smalls - 1)
}

// The location that an address selects.
pub fn location_of(part: Part, address: u32) -> u32
    ensures value { result ≡ location (geometry_of part) address }
    ensures inside { result < words (geometry_of part) }
    ensures limit { result < 16777216 }
{
    address % length_of(part)
}

// The location counted from the end that has the small blocks.
fn mirror_of(part: Part, location: u32) -> u32
    ensures { result ≡ mirror (geometry_of part) location }
{
    if is_top(part) {
        (length_of(part) - 1).saturating_sub(location)
    } else {
        location
    }
}

// A place in a main block, in a small block and in a bank as bits of a location.
#[derive(Clone, Copy)]
struct Shifts {
    unit: u32,
    small: u32,
    bank: u32,
}

// A quotient by bits is a shift, whatever the part, and takes no jump; by a number of the geometry it would be a
// division.
fn shifts_of(part: Part) -> Shifts
    ensures unit { result.unit ≡ unit_bits part }
    ensures small { result.small ≡ small_bits part }
    ensures bank { result.bank ≡ bank_bits part }
    ensures limits { (result.unit < 32) × (result.small < 32) × (result.bank < 32) }
{
    match part {
        Part::FullBottom | Part::FullTop => Shifts {
            unit: 16,
            small: 14,
            bank: 20,
        },
        Part::BenchBottom | Part::BenchTop => Shifts {
            unit: 6,
            small: 4,
            bank: 10,
        },
    }
}

// The block of a location that is counted from the end that has the small blocks.
fn block_from(part: Part, m: u32) -> u32
    ensures { result ≡ block_from (geometry_of part) m }
{
    let shifts = shifts_of(part);
    let place = m >> shifts.unit;
    if place == 0 {
        m >> shifts.small
    } else {
        place + (geometry_of(part).smalls - 1)
    }
}

// The block that a location lies in.
pub fn block_of(part: Part, location: u32) -> u32
    ensures value { result ≡ block_of (geometry_of part) location }
    ensures inside { location < words (geometry_of part) → result < 259 }
{
    block_from(part, mirror_of(part, location))
}

// The bank that a location lies in.
pub fn bank_of(part: Part, location: u32) -> u32
    ensures value { result ≡ bank_of (geometry_of part) location }
    ensures inside { location < words (geometry_of part) → result < 16 }
{
    mirror_of(part, location) >> shifts_of(part).bank
}

// The bits of an address that are turned round where the small blocks are at the top: those of a location.
fn turned_bits(part: Part) -> u32
    ensures { result ≡ turned (geometry_of part) }
{
    // Before the test, so that a step takes no jump.
    let last = length_of(part) - 1;
    if is_top(part) { last } else { 0 }
}

// The mirror of the location that an address selects. A length is a power of two, so the last location less another is
// that one with its bits turned round; a step takes no test for it.
fn mirror_at(part: Part, address: u32) -> u32
    ensures { result ≡ mirror (geometry_of part) (location (geometry_of part) address) }
{
    (address ^ turned_bits(part)) % length_of(part)
}

// The block of the location that an address selects.
pub fn block_at(part: Part, address: u32) -> u32
    ensures value { result ≡ block_of (geometry_of part) (location (geometry_of part) address) }
    ensures inside { result < 259 }
{
    block_from(part, mirror_at(part, address))
}

// The bank of the location that an address selects.
pub fn bank_at(part: Part, address: u32) -> u32
    ensures value { result ≡ bank_of (geometry_of part) (location (geometry_of part) address) }
    ensures inside { result < 16 }
{
    mirror_at(part, address) >> shifts_of(part).bank
}

// The words of a block.
pub fn block_size(part: Part, block: u32) -> u32
    ensures value { result ≡ size_of (geometry_of part) block }
    ensures limit { result ≤ 16777216 }
{
    let g = geometry_of(part);
    if block < g.smalls {
        g.unit / g.smalls
    } else if block < block_count(part) {
        g.unit
    } else {
        0
    }
}

// The lowest location of a run of `size` words that begins at `from`, counted from the end that has the small blocks.
fn run_start(part: Part, from: u32, size: u32) -> u32
    requires { from + size ≤ words (geometry_of part) }
    ensures { result ≡ cond (geometry_of part).top (words (geometry_of part) - (from + size)) from }
{
    if is_top(part) {
        length_of(part) - (from + size)
    } else {
        from
    }
}

// The lowest location of a block.
pub fn block_start(part: Part, block: u32) -> u32
    ensures value { result ≡ start_of (geometry_of part) block }
    ensures inside { result < words (geometry_of part) }
    ensures limit { result < 16777216 }
{
    let g = geometry_of(part);
    if block >= block_count(part) {
        0
    } else if block < g.smalls {
        let size = g.unit / g.smalls;
        run_start(part, block * size, size)
    } else {
        run_start(part, (block - (g.smalls - 1)) * g.unit, g.unit)
    }
}

// The lowest location of a bank.
pub fn bank_start(part: Part, bank: u32) -> u32
    ensures value { result ≡ bank_start (geometry_of part) bank }
    ensures inside { result < words (geometry_of part) }
    ensures limit { result < 16777216 }
{
    let g = geometry_of(part);
    let size = g.group * g.unit;
    if bank < g.places / g.group {
        run_start(part, bank * size, size)
    } else {
        0
    }
}

// The location's distance from the lowest location of its block.
pub fn block_offset(part: Part, location: u32) -> u32
    ensures { result ≡ block_offset (geometry_of part) location }
{
    location - block_start(part, block_of(part, location))
}

// The location's distance from the lowest location of its bank.
pub fn bank_offset(part: Part, location: u32) -> u32
    ensures { result ≡ bank_offset (geometry_of part) location }
{
    location - bank_start(part, bank_of(part, location))
}

// The bank that a block lies in.
pub fn bank_of_block(part: Part, block: u32) -> u32
    ensures value { result ≡ bank_of_block (geometry_of part) block }
    ensures limit { result < 16 }
{
    bank_of(part, block_start(part, block))
}

// ---- the table of block starts: document 02, item 7

// The start locations of the blocks of the full bottom part, from block 0 on: the starts, not the ends, in the sheet's
// Tables 32 to 34. They are searched where they lie.
static STARTS: [u32; 259] = [
    0x000000, 0x004000, 0x008000, 0x00C000, 0x010000, 0x020000, 0x030000, 0x040000, 0x050000,
    0x060000, 0x070000, 0x080000, 0x090000, 0x0A0000, 0x0B0000, 0x0C0000, 0x0D0000, 0x0E0000,
    0x0F0000, 0x100000, 0x110000, 0x120000, 0x130000, 0x140000, 0x150000, 0x160000, 0x170000,
    0x180000, 0x190000, 0x1A0000, 0x1B0000, 0x1C0000, 0x1D0000, 0x1E0000, 0x1F0000, 0x200000,
    0x210000, 0x220000, 0x230000, 0x240000, 0x250000, 0x260000, 0x270000, 0x280000, 0x290000,
    0x2A0000, 0x2B0000, 0x2C0000, 0x2D0000, 0x2E0000, 0x2F0000, 0x300000, 0x310000, 0x320000,
    0x330000, 0x340000, 0x350000, 0x360000, 0x370000, 0x380000, 0x390000, 0x3A0000, 0x3B0000,
    0x3C0000, 0x3D0000, 0x3E0000, 0x3F0000, 0x400000, 0x410000, 0x420000, 0x430000, 0x440000,
    0x450000, 0x460000, 0x470000, 0x480000, 0x490000, 0x4A0000, 0x4B0000, 0x4C0000, 0x4D0000,
    0x4E0000, 0x4F0000, 0x500000, 0x510000, 0x520000, 0x530000, 0x540000, 0x550000, 0x560000,
    0x570000, 0x580000, 0x590000, 0x5A0000, 0x5B0000, 0x5C0000, 0x5D0000, 0x5E0000, 0x5F0000,
    0x600000, 0x610000, 0x620000, 0x630000, 0x640000, 0x650000, 0x660000, 0x670000, 0x680000,
    0x690000, 0x6A0000, 0x6B0000, 0x6C0000, 0x6D0000, 0x6E0000, 0x6F0000, 0x700000, 0x710000,
    0x720000, 0x730000, 0x740000, 0x750000, 0x760000, 0x770000, 0x780000, 0x790000, 0x7A0000,
    0x7B0000, 0x7C0000, 0x7D0000, 0x7E0000, 0x7F0000, 0x800000, 0x810000, 0x820000, 0x830000,
    0x840000, 0x850000, 0x860000, 0x870000, 0x880000, 0x890000, 0x8A0000, 0x8B0000, 0x8C0000,
    0x8D0000, 0x8E0000, 0x8F0000, 0x900000, 0x910000, 0x920000, 0x930000, 0x940000, 0x950000,
    0x960000, 0x970000, 0x980000, 0x990000, 0x9A0000, 0x9B0000, 0x9C0000, 0x9D0000, 0x9E0000,
    0x9F0000, 0xA00000, 0xA10000, 0xA20000, 0xA30000, 0xA40000, 0xA50000, 0xA60000, 0xA70000,
    0xA80000, 0xA90000, 0xAA0000, 0xAB0000, 0xAC0000, 0xAD0000, 0xAE0000, 0xAF0000, 0xB00000,
    0xB10000, 0xB20000, 0xB30000, 0xB40000, 0xB50000, 0xB60000, 0xB70000, 0xB80000, 0xB90000,
    0xBA0000, 0xBB0000, 0xBC0000, 0xBD0000, 0xBE0000, 0xBF0000, 0xC00000, 0xC10000, 0xC20000,
    0xC30000, 0xC40000, 0xC50000, 0xC60000, 0xC70000, 0xC80000, 0xC90000, 0xCA0000, 0xCB0000,
    0xCC0000, 0xCD0000, 0xCE0000, 0xCF0000, 0xD00000, 0xD10000, 0xD20000, 0xD30000, 0xD40000,
    0xD50000, 0xD60000, 0xD70000, 0xD80000, 0xD90000, 0xDA0000, 0xDB0000, 0xDC0000, 0xDD0000,
    0xDE0000, 0xDF0000, 0xE00000, 0xE10000, 0xE20000, 0xE30000, 0xE40000, 0xE50000, 0xE60000,
    0xE70000, 0xE80000, 0xE90000, 0xEA0000, 0xEB0000, 0xEC0000, 0xED0000, 0xEE0000, 0xEF0000,
    0xF00000, 0xF10000, 0xF20000, 0xF30000, 0xF40000, 0xF50000, 0xF60000, 0xF70000, 0xF80000,
    0xF90000, 0xFA0000, 0xFB0000, 0xFC0000, 0xFD0000, 0xFE0000, 0xFF0000,
];

// The table. Its contract is the one computed test over all 259 entries.
fn block_starts() -> &'static [u32; 259]
    ensures { tied (geometry_of Part.FullBottom) 0 0 result.now ≡ true }
{
    &STARTS
}

// How many entries of a rising table are not above a location, by halving, where a look takes no jump.
fn not_above(table: &[u32], location: u32) -> usize
    requires { Rises table.now }
    ensures { result ≡ not_above table.now location }
{
    table.partition_point(|start| *start <= location)
}

// How many words of the full bottom part a word of the part stands for.
fn scale_of(part: Part) -> u32
    ensures value { result ≡ scale (geometry_of part) }
    ensures positive { 0 < result }
{
    65536 / geometry_of(part).unit
}

// The block that a location lies in, through the table: by mirror and scale, and then the last entry that is not above.
fn block_by_table(part: Part, location: u32) -> u32
    requires { location < words (geometry_of part) }
    ensures value { result ≡ block_of (geometry_of part) location }
    ensures inside { result < 259 }
{
    let m = mirror_of(part, location) * scale_of(part);
    (not_above(block_starts(), m) - 1) as u32
}

// The lowest location of a block, through the table; 0 for a number that is no block.
pub fn start_by_table(part: Part, block: u32) -> u32
    ensures value { result ≡ start_of (geometry_of part) block }
    ensures limit { result < 16777216 }
{
    if block < block_count(part) {
        let from = block_starts()[block as usize] / scale_of(part);
        run_start(part, from, block_size(part, block))
    } else {
        0
    }
}

// ---- the lookup of the host bench

// The part that a number names: 0 full bottom, 1 full top, 2 bench bottom, 3 bench top.
impl TryFrom<u32> for Part {
    type Error = Refusal;

    ghost try_from_gives = { λ n r. r ≡ part_named n };

    fn try_from(n: u32) -> Result<Part, Refusal> {
        match n {
            0 => Ok(Part::FullBottom),
            1 => Ok(Part::FullTop),
            2 => Ok(Part::BenchBottom),
            3 => Ok(Part::BenchTop),
            _ => Err(Refusal::NoPart),
        }
    }
}

// The same, and bench top for any other number.
pub fn part_numbered(n: u32) -> Part
    ensures { result ≡ part_numbered n }
{
    Part::try_from(n).unwrap_or(Part::BenchTop)
}

// The lookup of the host bench: the block and the bank of an address, which is refused before the part.
pub fn look_up(part: u32, address: u32) -> Result<Located, Refusal>
    ensures value { result ≡ lookup_of part address }
    ensures refusals { IfErr result (λ e. (e ≡ Refusal.Address) ⊎ (e ≡ Refusal.NoPart)) }
    ensures blocks { IfOk result (λ f. f.block < 259) }
    ensures banks { IfOk result (λ f. f.bank < 16) }
{
    if address >= 16777216 {
        return Err(Refusal::Address);
    }
    let p = Part::try_from(part)?;
    let l = location_of(p, address);
    Ok(Located {
        block: block_by_table(p, l),
        bank: bank_of(p, l),
    })
}
