// What a read shows: the status word, the signature, the query and the word at a location (document 01, "Read,
// address." and "Status word."). Each function takes every number: a location past the array reads 0.
#![tactic(auto)]

ghost use Rattle.std.specs.Prelude.{◌≡◌, not, ◌&&◌, ℕ, ◌≤◌, get_or};
ghost use Rattle.geometry.specs.Blocks.{geometry_of};
ghost use Rattle.semantics.specs.State.{runs};
ghost use Rattle.semantics.specs.Reading.{runs_in, bit_if, status_word, device_code, signature_word, query_word, shown, read_in, read_word};
ghost use Rattle.reading.specs.Shown.{seen, placed};

use geometry::Part;
use semantics::{Activity, Control, Flags, Mode, Running, State, View};

// `n` where `on` holds, and else 0. The bound is what a sum of them asks.
fn bit_if(on: bool, n: u16) -> u16
    ensures value { result ≡ bit_if on n }
    ensures bound { result ≤ n }
{
    if on { n } else { 0 }
}

// What runs is in this bank: `operation::runs_in`, which is called only where something runs, since it is not inlined.
#[tactic(auto, using(operation::specs::Rest::runs_nowhere))]
fn busy_in(part: Part, r: Running, bank: u32) -> bool
    ensures { result ≡ runs_in (geometry_of part) r bank }
{
    operation::runs(r) && operation::runs_in(part, r, bank)
}

// Something runs, in a bank other than this.
fn busy_elsewhere(part: Part, r: Running, bank: u32) -> bool
    ensures { result ≡ (runs r && not (runs_in (geometry_of part) r bank)) }
{
    operation::runs(r) && !operation::runs_in(part, r, bank)
}

// The status word that a read in a bank shows: the eight lines of Table 9, SR7 first. Each decides its own bit and no
// other (semantics, StatusBits).
#[tactic(auto, unfolding(semantics::specs::Reading::status_word))]
pub fn status_word(part: Part, a: Activity, flags: Flags, bank: u32) -> u16
    ensures { result ≡ status_word (geometry_of part) a flags bank }
{
    bit_if(!operation::runs(a.running), 0x80) // SR7 P/EC status
        + bit_if(operation::erase_suspended(a.erase), 0x40) // SR6 erase suspend status
        + bit_if(flags.sr5, 0x20) // SR5 erase/blank check status
        + bit_if(flags.sr4, 0x10) // SR4 program status
        + bit_if(flags.sr3, 0x08) // SR3 VPP status
        + bit_if(operation::program_suspended(a.program), 0x04) // SR2 program suspend status
        + bit_if(flags.sr1, 0x02) // SR1 block protection status
        + bit_if(busy_elsewhere(part, a.running, bank), 0x01) // SR0 bank write status
}

fn device_code(part: Part) -> u16
    ensures { result ≡ device_code (geometry_of part) }
{
    if geometry::geometry_of(part).top {
        0x885e
    } else {
        0x885f
    }
}

// The word that a bank in signature mode shows at a place.
#[tactic(auto, unfolding(semantics::specs::Reading::signature_word))]
pub fn signature_word(part: Part, v: View, location: u32) -> u16
    ensures { result ≡ signature_word (geometry_of part) v location }
{
    match geometry::bank_offset(part, location) {
        0 => 0x0020,
        1 => device_code(part),
        5 => v.control.configuration,
        _ if geometry::block_offset(part, location) == 2 => bit_if(!v.unprotected, 0x0001),
        _ => 0x0000,
    }
}

// The word that a bank in query mode shows at an offset of the bank.
#[tactic(auto, unfolding(semantics::specs::Reading::query_word))]
pub fn query_word(offset: u32) -> u16
    ensures { result ≡ query_word offset }
{
    match offset {
        0x10 => 0x51,
        0x11 => 0x52,
        0x12 => 0x59,
        _ => 0,
    }
}

fn word_at(array: &[u16], location: u32) -> u16
    ensures { result ≡ get_or array.now location 0 }
{
    array.get(location as usize).copied().unwrap_or(0)
}

// The mode that decides what a read shows: array mode shows the status word while an operation runs in the bank.
#[tactic(auto, unfolding(semantics::specs::Reading::shown))]
fn shown(part: Part, mode: Mode, running: Running, bank: u32) -> Mode
    ensures { result ≡ shown (geometry_of part) running bank mode }
{
    match mode {
        Mode::Array if busy_in(part, running, bank) => Mode::Status,
        _ => mode,
    }
}

// The word that a read at a location of a bank shows, by the bank's mode. The protection is lent, and looked up for the
// signature alone.
#[tactic(auto, using(crate::specs::Shown::by_array, crate::specs::Shown::by_status, crate::specs::Shown::by_signature, crate::specs::Shown::by_query))]
pub fn read_at(
    part: Part,
    mode: Mode,
    control: Control,
    unprotected: &[u64; 5],
    array: &[u16],
    location: u32,
    bank: u32,
) -> u16
    ensures { (a : ℕ) → result ≡ read_in (geometry_of part) (seen (geometry_of part) mode control unprotected.now location) array.now (placed (geometry_of part) a location bank) }
{
    match shown(part, mode, control.activity.running, bank) {
        Mode::Array => word_at(array, location),
        Mode::Status => status_word(part, control.activity, control.flags, bank),
        Mode::Signature => {
            let block = geometry::block_of(part, location);
            let v = View {
                mode,
                unprotected: protection::is_unprotected(unprotected, block),
                control,
            };
            signature_word(part, v, location)
        }
        Mode::Query => query_word(geometry::bank_offset(part, location)),
    }
}

// At an address of a state.
#[tactic(auto, using(crate::specs::Shown::read_seen))]
pub fn read_word(s: State, array: &[u16], address: u32) -> u16
    ensures { result ≡ read_word s array.now address }
{
    let location = geometry::location_of(s.part, address);
    let bank = geometry::bank_of(s.part, location);
    let mode = state::mode_of(s.banks, bank);
    read_at(
        s.part,
        mode,
        s.control,
        &s.unprotected,
        array,
        location,
        bank,
    )
}
