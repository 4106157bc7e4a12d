// What C programs call. Each function takes every number and every slice, which C hands over as a pointer and a length.
// A device is kept as the 25 words of the crate saved, and beside them its erase counts, which C hands over as two
// pointers: sixteen rows of sixteen, and four. A call copies none of them. A step, and an answer, is a number of 64
// bits (crate playback). A part, a refusal and an answer of several fields are numbers here, since C takes no enum.
#![tactic(auto)]

ghost use Rattle.std.specs.Prelude.{◌≡◌, ◌+◌, ◌*◌, ◌<◌};
ghost use Rattle.geometry.specs.Blocks.{lookup_of, number_in, block_in, bank_in};
ghost use Rattle.refusal.specs.Numbers.{number};
ghost use Rattle.semantics.specs.Reading.{bit_if};
ghost use Rattle.wear.specs.Counts.{lent};
ghost use Rattle.wear.specs.Steps.{reported_with, most_worn_with, erase_count_with};
ghost use Rattle.device.specs.Outcomes.{holding};
ghost use Rattle.saved.specs.Saved.{state_of};
ghost use Rattle.saved.specs.Ranges.{either};
ghost use Rattle.m58.specs.Calls.{start_code, powers_up, powered_up, unworn, Ran, report_code, worn_code, count_code};
ghost use Rattle.m58.specs.Calls.{hex_code, hex_verdict, hex_array, hex_written, hex_room};

use device::Device;
use geometry::Part;
use refusal::Refusal;
use semantics::State;

// A refusal stands from bit 32.
const HIGH: u64 = 4294967296;

// A refusal alone: its number from bit 32.
fn refused(e: Refusal) -> u64
    ensures { result ≡ number e * 4294967296 }
{
    u64::from(u32::from(e)) * HIGH
}

// ---- the lookup of an address of a part, by the part's number

// The refusal's number, or 0.
#[unsafe(no_mangle)]
pub extern "C" fn m58_lookup_refusal(part: u32, address: u32) -> u32
    ensures { result ≡ number_in (lookup_of part address) }
{
    match geometry::look_up(part, address) {
        Ok(_) => 0,
        Err(e) => e.into(),
    }
}

// The block, 0 where it is refused.
#[unsafe(no_mangle)]
pub extern "C" fn m58_lookup_block(part: u32, address: u32) -> u32
    ensures { result ≡ block_in (lookup_of part address) }
{
    geometry::look_up(part, address).map_or(0, |found| found.block)
}

// The bank, 0 where it is refused.
#[unsafe(no_mangle)]
pub extern "C" fn m58_lookup_bank(part: u32, address: u32) -> u32
    ensures { result ≡ bank_in (lookup_of part address) }
{
    geometry::look_up(part, address).map_or(0, |found| found.bank)
}

// The lowest location of a block of a part, from bit 0, with the refusal 7 from bit 32; 16,777,216, which is no
// location, for a number that is no block.
#[unsafe(no_mangle)]
pub extern "C" fn m58_block_start(part: u32, block: u32) -> u64
    ensures { result ≡ start_code part block }
{
    match Part::try_from(part) {
        Err(e) => refused(e),
        Ok(p) if block < geometry::block_count(p) => geometry::start_by_table(p, block).into(),
        Ok(_) => 16777216,
    }
}

// ---- the device

// Saves power-up of a part, by its number, sets the counts to 0 and answers 1; writes nothing and answers 0 where there
// is no such part, or not room for just 25 words.
#[unsafe(no_mangle)]
pub extern "C" fn m58_power_up(
    part: u32,
    state: &mut [u64],
    main: &mut [[u16; 16]; 16],
    small: &mut [u16; 4],
) -> u32
    ensures value { result ≡ bit_if (powers_up part state.old) 1 }
    ensures state { state.new ≡ powered_up part state.old }
    ensures counts { lent main.new small.new ≡ unworn part state.old (lent main.old small.old) }
{
    match Part::try_from(part) {
        Ok(p) if state.len() == 25 => {
            saved::save(Device::power_up(p, main, small).state, state);
            1
        }
        _ => 0,
    }
}

// The device of what was found, a saved state or the one that stands for words that are none.
fn device_of(found: Result<State, State>) -> Device
    ensures { result ≡ holding (either found) }
{
    let (Ok(state) | Err(state)) = found;
    Device { state }
}

// Plays steps on the saved state, its counts and the array, writes the answers, saves the state after them, and answers
// how many were played. Words that are no saved state are left: each step on them is refused. A few reads alone change
// nothing, and save nothing.
#[unsafe(no_mangle)]
pub extern "C" fn m58_run(
    state: &mut [u64],
    main: &mut [[u16; 16]; 16],
    small: &mut [u16; 4],
    steps: &[u64],
    answers: &mut [u64],
    array: &mut [u16],
) -> usize
    ensures { Ran state.old (lent main.old small.old) steps.now answers.old array.old result state.new (lent main.new small.new) answers.new array.new }
{
    let found = saved::found_in(state);
    let end = playback::run(device_of(found), main, small, steps, answers, array);
    if !playback::few_reads(steps) && found.is_ok() {
        saved::save(end.device.state, state);
    }
    end.played
}

// The device that words hold.
fn device_in(state: &[u64]) -> Device
    ensures { result ≡ holding (state_of state.now) }
{
    device_of(saved::found_in(state))
}

// A count from bit 16, and a block below it.
fn count_and_block(count: u32, block: u32) -> u64
    ensures { result ≡ count * 65536 + block }
{
    u64::from(count) * 65536 + u64::from(block)
}

// How many blocks are unprotected, and the lowest of them, in one number.
#[unsafe(no_mangle)]
pub extern "C" fn m58_report(state: &[u64], main: &[[u16; 16]; 16], small: &[u16; 4]) -> u64
    ensures { result ≡ report_code (reported_with (state_of state.now) (lent main.now small.now)) }
{
    device_in(state)
        .report(main, small)
        .map_or_else(refused, |told| count_and_block(told.count, told.lowest))
}

// The most worn block, the lowest of them on a tie, and its count, in one number.
#[unsafe(no_mangle)]
pub extern "C" fn m58_most_worn(state: &[u64], main: &[[u16; 16]; 16], small: &[u16; 4]) -> u64
    ensures { result ≡ worn_code (most_worn_with (state_of state.now) (lent main.now small.now)) }
{
    device_in(state)
        .most_worn(main, small)
        .map_or_else(refused, |told| count_and_block(told.count, told.block))
}

// The count of a block, in one number with the refusal.
#[unsafe(no_mangle)]
pub extern "C" fn m58_erase_count(
    state: &[u64],
    main: &[[u16; 16]; 16],
    small: &[u16; 4],
    block: u32,
) -> u64
    ensures { result ≡ count_code (erase_count_with (state_of state.now) (lent main.now small.now) block) }
{
    device_in(state)
        .erase_count(main, small, block)
        .map_or_else(refused, |told| told.count.into())
}

// ---- Intel HEX

// A line or a length. One of more than 32 bits is told as the greatest of 32 bits.
fn in_32_bits(number: usize) -> u64
    ensures value { result ≡ hex_code 0 number }
    ensures limit { result < 4294967296 }
{
    (number as u64).min(HIGH - 1)
}

// Reads a text into a part's array, by the part's number, and answers the refusal from bit 32 and the line that
// decided.
#[unsafe(no_mangle)]
pub extern "C" fn m58_hex_read(part: u32, text: &[u8], array: &mut [u16]) -> u64
    ensures value { result ≡ hex_verdict part text.now array.old }
    ensures array { array.new ≡ hex_array part text.now array.old }
{
    match Part::try_from(part) {
        Err(e) => refused(e),
        Ok(p) => match hexread::read(p, text, array) {
            Ok(line) => in_32_bits(line),
            Err(bad) => refused(bad.refusal) + in_32_bits(bad.line),
        },
    }
}

// Writes a part's array as text, by the part's number, and answers the refusal from bit 32 or the length of what was
// written.
#[unsafe(no_mangle)]
pub extern "C" fn m58_hex_write(part: u32, array: &[u16], text: &mut [u8]) -> u64
    ensures value { result ≡ hex_written part array.now text.old }
    ensures text { text.new ≡ hex_room part array.now text.old }
{
    match Part::try_from(part) {
        Err(e) => refused(e),
        Ok(p) => match hexwrite::write(p, array, text) {
            Ok(length) => in_32_bits(length),
            Err(e) => refused(e),
        },
    }
}
