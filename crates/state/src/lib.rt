// A device's state: power-up, the states that differ from another in one field, and whether a state and a step's
// numbers are refused. Each function takes every state and number. What these mean is in the crate semantics.
#![tactic(auto)]

ghost use Rattle.std.specs.Prelude.{List, ◌≡◌, ◌<◌};
ghost use Rattle.geometry.specs.declared.Geometry.{Geometry};
ghost use Rattle.geometry.specs.Blocks.{geometry_of};
ghost use Rattle.semantics.specs.declared.Bank.{Bank};
ghost use Rattle.semantics.specs.State.{with_protection, with_supply, mode_in, flags_of, no_flags, joined, power_up};
ghost use Rattle.semantics.specs.View.{place_of, view_at, with_view};
ghost use Rattle.semantics.specs.Register.{without_reserved, reserved_zero};
ghost use Rattle.semantics.specs.Supply.{end_flags, ended, switched};
ghost use Rattle.semantics.specs.WellFormed.{runs_supplied, well_formed};
ghost use Rattle.semantics.specs.Working.{buffer_after};
ghost use Rattle.semantics.specs.Card.{given, card};
ghost use Rattle.semantics.specs.Split.{step_refusal, first_refusal};

use geometry::Part;
use refusal::Refusal;
use semantics::{
    Activity, Bank, Control, Flags, Mode, Place, Running, Setup, State, Step, SuspendedProgram,
    View,
};

// ---- one field changed

pub fn with_protection(s: State, x: [u64; 5]) -> State
    ensures { result ≡ with_protection s x }
{
    State {
        unprotected: x,
        ..s
    }
}

pub fn with_supply(mut s: State, x: bool) -> State
    ensures { result ≡ with_supply s x }
{
    s.control.supply = x;
    s
}

// ---- places and views

// What an address names on a part.
pub fn place_of(part: Part, address: u32) -> Place
    ensures value { result ≡ place_of (geometry_of part) address }
    ensures bank { result.bank < 16 }
    ensures block { result.block < 259 }
{
    Place {
        address,
        location: geometry::location_of(part, address),
        bank: geometry::bank_at(part, address),
        block: geometry::block_at(part, address),
    }
}

// The read mode of a bank; a number that is no bank is given array.
pub fn mode_of(banks: [Bank; 16], bank: u32) -> Mode
    ensures { result ≡ mode_in banks bank }
{
    banks.get(bank as usize).map_or(Mode::Array, |b| b.mode)
}

// What is seen of the state at a place.
pub fn view_at(s: State, p: Place) -> View
    ensures { result ≡ view_at s p }
{
    View {
        mode: mode_of(s.banks, p.bank),
        unprotected: protection::is_unprotected(&s.unprotected, p.block),
        control: s.control,
    }
}

// The state with what is seen at a place changed; a number that is no bank changes no mode. (After an array's `get_mut`
// a proof knows no element.)
pub fn with_view(mut s: State, p: Place, v: View) -> State
    ensures { result ≡ with_view s p v }
{
    s.control = v.control;
    protection::set_block(&mut s.unprotected, p.block, v.unprotected);
    let bank = p.bank as usize;
    if bank < s.banks.len() {
        s.banks[bank].mode = v.mode;
    }
    s
}

// ---- flags

// Flags in the order SR5, SR4, SR3, SR1.
pub fn flags_of(sr5: bool, sr4: bool, sr3: bool, sr1: bool) -> Flags
    ensures { result ≡ flags_of sr5 sr4 sr3 sr1 }
{
    Flags { sr5, sr4, sr3, sr1 }
}

pub fn no_flags() -> Flags
    ensures { result ≡ no_flags }
{
    flags_of(false, false, false, false)
}

// The flags that are set in either. (An `impl BitOr` would stand in semantics, which has no code.)
pub fn join(f: Flags, g: Flags) -> Flags
    ensures { result ≡ joined f g }
{
    Flags {
        sr5: f.sr5 | g.sr5,
        sr4: f.sr4 | g.sr4,
        sr3: f.sr3 | g.sr3,
        sr1: f.sr1 | g.sr1,
    }
}

// ---- the configuration register

// A word with the register's reserved bits, 14, 5 and 4, at 0.
#[tactic(auto, unfolding(semantics::specs::Register::without_reserved))]
pub fn without_reserved(w: u16) -> u16
    ensures { result ≡ without_reserved w }
{
    w & 0xbfcf
}

// Whether a word has them at 0, and so is left as it is by the mask.
#[tactic(auto, using(semantics::proofs::RegisterBits::masked_same))]
pub fn reserved_zero(w: u16) -> bool
    ensures { result ≡ reserved_zero w }
{
    without_reserved(w) == w
}

// ---- the supply

// The flags of what ends for want of supply.
#[tactic(auto, unfolding(semantics::specs::Supply::end_flags))]
fn end_flags(r: Running) -> Flags
    ensures { result ≡ end_flags r }
{
    match r {
        Running::Idle => no_flags(),
        Running::Program { .. } | Running::Buffer { .. } => flags_of(false, true, true, false),
        Running::Erase { .. } => flags_of(true, false, true, false),
    }
}

// What runs ends, with its flags beside those that were.
#[tactic(auto, unfolding(semantics::specs::Supply::ended))]
pub fn ended(c: Control) -> Control
    ensures { result ≡ ended c }
{
    Control {
        activity: operation::with_running(c.activity, Running::Idle),
        flags: join(c.flags, end_flags(c.activity.running)),
        ..c
    }
}

// The same, where the buffer stands: a buffer program leaves it empty.
#[tactic(auto, unfolding(semantics::specs::Working::buffer_after))]
pub fn end_running(c: Control, buffer: &mut [u16; 32]) -> Control
    ensures control { result ≡ ended c }
    ensures buffer { buffer.new ≡ buffer_after c.activity.running Running.Idle buffer.old }
{
    if matches!(c.activity.running, Running::Buffer { .. }) {
        buffer::keep_if(buffer, false);
    }
    ended(c)
}

// The supply switched on or off: off ends what runs. (A supply step of a list takes 31 instructions so, and 66 where
// the `if` is the value.)
#[tactic(auto, using(semantics::proofs::Spare::buffer_on), unfolding(semantics::specs::Supply::switched, semantics::specs::Supply::ended_if_unsupplied, semantics::specs::Supply::ended))]
pub fn switch_supply(mut c: Control, on: bool, buffer: &mut [u16; 32]) -> Control
    ensures control { result ≡ switched c on }
    ensures buffer { buffer.new ≡ buffer_after c.activity.running (switched c on).activity.running buffer.old }
{
    c.supply = on;
    if on {
        return c;
    }
    end_running(c, buffer)
}

// Something runs only with supply on.
#[tactic(auto, unfolding(semantics::specs::WellFormed::runs_supplied))]
fn runs_supplied(c: Control) -> bool
    ensures { result ≡ runs_supplied c }
{
    !operation::runs(c.activity.running) | c.supply
}

// ---- power-up

#[tactic(auto, unfolding(semantics::specs::State::power_up))]
pub fn power_up(part: Part) -> State
    ensures { result ≡ power_up part }
{
    State {
        part,
        banks: [Bank { mode: Mode::Array }; 16],
        unprotected: protection::all_protected(),
        control: Control {
            activity: Activity {
                setup: Setup::Nothing,
                running: Running::Idle,
                program: SuspendedProgram::Nothing,
                erase: None,
            },
            flags: no_flags(),
            configuration: 0xbfcf,
            supply: false,
        },
        buffer: buffer::empty(),
    }
}

// Reset: the power-up state, but for the supply.
pub fn reset(s: State) -> State
    ensures { result ≡ with_supply (power_up s.part) s.control.supply }
{
    with_supply(power_up(s.part), s.control.supply)
}

// ---- refusals

// Whether a state of these pieces is well formed (document 01: well made), whatever the modes are. Where nothing runs,
// is suspended or is loaded, only the spare storage and the register are left to test.
#[tactic(auto, using(operation::specs::Rest::at_rest_formed, operation::specs::Rest::at_rest_unused, operation::specs::Rest::at_rest_idle, semantics::proofs::Supplied::idle_supplied), unfolding(semantics::specs::WellFormed::well_formed))]
pub fn formed_of(part: Part, c: Control, words: [u64; 5], buffer: [u16; 32]) -> bool
    ensures { (bs : List Bank) → result ≡ well_formed (record { part = part; banks = bs; unprotected = words; control = c; buffer = buffer }) }
{
    let a = c.activity;
    if operation::at_rest(a) {
        protection::spare_zero(words)
            & buffer::zero_from(buffer, 0)
            & reserved_zero(c.configuration)
    } else {
        operation::activity_formed(part, a)
            & protection::spare_zero(words)
            & buffer::zero_from(buffer, operation::places_used(a))
            & reserved_zero(c.configuration)
            & runs_supplied(c)
    }
}

// And of a whole state.
pub fn well_formed(s: State) -> bool
    ensures { result ≡ well_formed s }
{
    formed_of(s.part, s.control, s.unprotected, s.buffer)
}

// What every step is refused for, and a reset for nothing else, beside an array of n words and a state of the part that
// is well formed or not: the length, or else the state.
#[tactic(auto, using(semantics::proofs::Split::reset_refused))]
pub fn refusal_beside(part: Part, formed: bool, n: usize) -> Option<Refusal>
    ensures { result ≡ given (card (geometry_of part) formed n Step.Reset) }
{
    if n != geometry::length_of(part) as usize {
        Some(Refusal::ArrayLength)
    } else if formed {
        None
    } else {
        Some(Refusal::Malformed)
    }
}

// The refusal of an address, of a read's as of a write's: it is too large. That its location lies in no block is not
// tested, since every location lies in a block (`address_good` of semantics).
#[tactic(auto, using(semantics::proofs::Split::address_good, semantics::proofs::Split::address_bad, geometry::specs::Laws::sound))]
pub fn address_refusal(part: Part, address: u32) -> Option<Refusal>
    ensures { result ≡ step_refusal (geometry_of part) (Step.Read address) }
{
    (16777216 <= address).then_some(Refusal::Address)
}

// What a step's own numbers are refused for.
#[tactic(auto, unfolding(semantics::specs::Split::step_refusal, semantics::specs::Card::given, semantics::specs::Card::card))]
pub fn step_refusal(part: Part, x: Step) -> Option<Refusal>
    ensures { result ≡ step_refusal (geometry_of part) x }
{
    match x {
        Step::Read(address) | Step::Write(address, _) => address_refusal(part, address),
        Step::Work(count) => count_refusal(count),
        Step::Supply(_) | Step::Reset => None,
    }
}

// The refusal of a work count.
#[tactic(auto, using(semantics::proofs::Split::count_good, semantics::proofs::Split::count_bad))]
pub fn count_refusal(n: u32) -> Option<Refusal>
    ensures { (g : Geometry) → result ≡ step_refusal g (Step.Work n) }
{
    (65535 < n).then_some(Refusal::WorkCount)
}

// The first of two refusals, or the second where there is no first.
pub fn first_refusal(a: Option<Refusal>, b: Option<Refusal>) -> Option<Refusal>
    ensures { result ≡ first_refusal a b }
{
    a.or(b)
}
