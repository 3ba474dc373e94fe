// The legend that two parties share: what each of 16 registers stands for, and whose entry it is; entries set and
// released. Definitions: specs/.
#![tactic(auto)]

ghost use Rattle.std.specs.Prelude.{◌≡◌, ◌<◌};
ghost use Rattle.legend.specs.Entries.{entries, is_party, owns, is_anothers, new_legend, with_entry};
ghost use Rattle.legend.specs.Entries.{entry_fits, legend_fits};
ghost use Rattle.legend.specs.Setting.{call_fits, set_fits, setting, releasing, legend_answer};

use outcome::{Reason, Refusal};

// The entries of a legend, one a register.
pub const ENTRIES: usize = 16;

// The owner of a free entry.
pub const FREE: u8 = 0;

// The highest number of a party: the parties are 1 and 2.
pub const MAX_PARTY: u8 = 2;

// The highest class.
pub const MAX_CLASS: u16 = 255;

// The highest confidence.
pub const MAX_CONFIDENCE: u8 = 100;

// What each of 16 registers stands for: an owner (0 free, 1 or 2 a party), a class, and a confidence of 0 to 100. A
// free entry has class and confidence 0.
#[repr(C)]
#[derive(Clone, Copy)]
pub struct Legend {
    pub owners: [u8; 16],
    pub classes: [u8; 16],
    pub confidences: [u8; 16],
}

// The answer of a set or a release, and the legend that it leaves: after a refusal the one that was given.
// C's struct: exported functions give it back.
#[repr(C)]
#[derive(Clone, Copy)]
pub struct LegendAnswer {
    pub refusal: Refusal,
    pub legend: Legend,
}

// A new legend: all entries free.
pub fn new_legend() -> Legend
    ensures { result ≡ new_legend }
{
    Legend {
        owners: [FREE; ENTRIES],
        classes: [0; ENTRIES],
        confidences: [0; ENTRIES],
    }
}

// Whether a number is one of the two parties.
#[tactic(auto, unfolding(crate::specs::Entries::is_party))]
pub fn is_party(party: u8) -> bool
    ensures { result ≡ is_party party }
{
    party != FREE && party <= MAX_PARTY
}

// Whether an entry may stand in a legend.
#[tactic(auto, unfolding(crate::specs::Entries::entry_fits))]
fn entry_fits(owner: u8, class: u8, confidence: u8) -> bool
    ensures { result ≡ entry_fits owner class confidence }
{
    if MAX_PARTY < owner || MAX_CONFIDENCE < confidence {
        return false;
    }
    owner != FREE || class == 0 && confidence == 0
}

// Whether each entry of a legend fits.
#[tactic(auto, unfolding(crate::specs::Entries::legend_fits))]
pub fn legend_fits(legend: Legend) -> bool
    ensures { result ≡ legend_fits legend }
{
    // Each entry is judged: stopping at the first that does not fit takes more stack.
    let mut fit = true;
    for v in 0..ENTRIES {
        if !entry_fits(legend.owners[v], legend.classes[v], legend.confidences[v]) {
            fit = false;
        }
    }
    fit
}

// Whether party, register and legend are as a set and a release need them.
fn call_fits(legend: Legend, party: u8, register: usize) -> bool
    ensures { result ≡ call_fits legend party register }
{
    is_party(party) && register < ENTRIES && legend_fits(legend)
}

// Whether class and confidence, too, are as a set needs them.
fn set_fits(legend: Legend, party: u8, register: usize, class: u16, confidence: u8) -> bool
    ensures { result ≡ set_fits legend party register class confidence }
{
    class <= MAX_CLASS && confidence <= MAX_CONFIDENCE && call_fits(legend, party, register)
}

// Whether an entry is neither free nor the party's.
fn is_anothers(legend: Legend, party: u8, register: usize) -> bool
    requires { register < entries }
    ensures { result ≡ is_anothers legend party register }
{
    legend.owners[register] != FREE && legend.owners[register] != party
}

// Whether an entry is the party's.
fn owns(legend: Legend, party: u8, register: usize) -> bool
    requires { register < entries }
    ensures { result ≡ owns legend party register }
{
    legend.owners[register] == party
}

// A legend with one entry written anew.
#[tactic(auto, unfolding(crate::specs::Entries::with_entry))]
fn with_entry(legend: Legend, register: usize, owner: u8, class: u8, confidence: u8) -> Legend
    requires { register < entries }
    ensures { result ≡ with_entry legend register owner class confidence }
{
    let mut next = legend;
    next.owners[register] = owner;
    next.classes[register] = class;
    next.confidences[register] = confidence;
    next
}

// The answer that C gets of a set or a release of a legend.
// C's struct, and no From: of a refusal it has the legend that was given, so both are needed.
pub fn answer(legend: Legend, given: Result<Legend, Refusal>) -> LegendAnswer
    ensures { result ≡ legend_answer legend given }
{
    match given {
        Ok(next) => LegendAnswer {
            refusal: outcome::none(),
            legend: next,
        },
        Err(refusal) => LegendAnswer { refusal, legend },
    }
}

// A party sets a free entry or its own, which is then its own.
#[tactic(auto, using(crate::proofs::Setting::set_fitting), unfolding(crate::specs::Setting::setting))]
pub fn set_entry(
    legend: Legend,
    party: u8,
    register: u8,
    class: u16,
    confidence: u8,
) -> Result<Legend, Refusal>
    ensures { result ≡ setting legend party register class confidence }
{
    let at = register as usize;
    if !set_fits(legend, party, at, class, confidence) {
        return Err(Reason::OutOfRange.refuse());
    }
    if is_anothers(legend, party, at) {
        return Err(Reason::NotOwned.refuse());
    }
    Ok(with_entry(legend, at, party, class as u8, confidence))
}

// A party releases its own entry, which is then free. Not inlined, so that the result is moved whole.
#[tactic(auto, using(crate::proofs::Setting::call_fitting), unfolding(crate::specs::Setting::releasing))]
#[inline(never)]
pub fn release_entry(legend: Legend, party: u8, register: u8) -> Result<Legend, Refusal>
    ensures { result ≡ releasing legend party register }
{
    let at = register as usize;
    if !call_fits(legend, party, at) {
        return Err(Reason::OutOfRange.refuse());
    }
    if !owns(legend, party, at) {
        return Err(Reason::NotOwned.refuse());
    }
    Ok(with_entry(legend, at, FREE, 0, 0))
}
