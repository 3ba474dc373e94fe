// Pond readings: the pixels of a class in a rectangle for a party, sure and unsure ones apart. Definitions: specs/.
#![tactic(auto)]

ghost use Rattle.std.specs.Prelude.{◌≡◌, ℕ, ◌<◌, ◌≤◌, get_or};
ghost use Rattle.tally.specs.Counts.{most_pixels};
ghost use Rattle.legend.specs.Entries.{entries};
ghost use Rattle.pond.specs.Reading.{question_fits, entry_counts, pond_from, pond_reading, pond_answer};

use legend::{ENTRIES, Legend, MAX_CLASS, MAX_CONFIDENCE};
use outcome::{Reason, Refusal};
use tally::{Rectangle, tally};

// How many pixels are sure, unsure and other.
#[derive(Clone, Copy)]
pub struct PondCounts {
    pub sure: u32,
    pub unsure: u32,
    pub other: u32,
}

// The answer of a pond reading in C: how many pixels are sure, unsure and other; all 0 of a refusal.
// C's struct: the exported function gives it back.
#[repr(C)]
#[derive(Clone, Copy)]
pub struct PondAnswer {
    pub refusal: Refusal,
    pub sure: u32,
    pub unsure: u32,
    pub other: u32,
}

impl From<Result<PondCounts, Refusal>> for PondAnswer {
    ghost from_gives = { λ given answer. answer ≡ pond_answer given };

    fn from(given: Result<PondCounts, Refusal>) -> PondAnswer {
        match given {
            Ok(counts) => PondAnswer {
                refusal: outcome::none(),
                sure: counts.sure,
                unsure: counts.unsure,
                other: counts.other,
            },
            Err(refusal) => PondAnswer {
                refusal,
                sure: 0,
                unsure: 0,
                other: 0,
            },
        }
    }
}

// Whether party, class, floor and legend are as a reading needs them.
fn question_fits(party: u8, class: u16, floor: u8, legend: Legend) -> bool
    ensures { result ≡ question_fits party class floor legend }
{
    legend::is_party(party)
        && class <= MAX_CLASS
        && floor <= MAX_CONFIDENCE
        && legend::legend_fits(legend)
}

// The pixels of register v, of which there are count: all sure, all unsure or all other.
#[tactic(auto, unfolding(crate::specs::Reading::entry_counts, crate::specs::Entries::is_sure, crate::specs::Entries::is_unsure, crate::specs::Entries::is_other))]
fn entry_counts(
    legend: Legend,
    party: u8,
    class: u16,
    floor: u8,
    v: usize,
    count: u32,
) -> PondCounts
    requires { v < entries }
    ensures { result ≡ entry_counts legend party class floor v count }
{
    if legend.owners[v] != party || u16::from(legend.classes[v]) != class {
        return PondCounts {
            sure: 0,
            unsure: 0,
            other: count,
        };
    }
    if floor <= legend.confidences[v] {
        return PondCounts {
            sure: count,
            unsure: 0,
            other: 0,
        };
    }
    PondCounts {
        sure: 0,
        unsure: count,
        other: 0,
    }
}

// The pixels of all registers, counted by register. No count exceeds the pixels of the largest screen.
fn pond_counts(counts: [u32; 16], legend: Legend, party: u8, class: u16, floor: u8) -> PondCounts
    requires { (v : ℕ) → get_or counts v 0 ≤ most_pixels }
    ensures { result ≡ pond_from counts party class floor legend }
{
    let mut sums = PondCounts {
        sure: 0,
        unsure: 0,
        other: 0,
    };
    for v in 0..ENTRIES {
        let entry = entry_counts(legend, party, class, floor, v, counts[v]);
        sums.sure += entry.sure;
        sums.unsure += entry.unsure;
        sums.other += entry.other;
    }
    sums
}

// Pond reading for a party: the pixels of a rectangle that are of a class in entries of the party, at or above a
// confidence floor and below it, and all others.
#[tactic(auto, using(crate::proofs::Reading::by_counts, tally::proofs::Totals::tally_le))]
pub fn read_pond(
    screen: &[u8],
    resolution: u16,
    rectangle: Rectangle,
    party: u8,
    class: u16,
    floor: u8,
    legend: Legend,
) -> Result<PondCounts, Refusal>
    ensures { result ≡ pond_reading screen.now resolution rectangle party class floor legend }
{
    let counts = tally(screen, resolution, rectangle)?;
    if !question_fits(party, class, floor, legend) {
        return Err(Reason::OutOfRange.refuse());
    }
    Ok(pond_counts(counts, legend, party, class, floor))
}
