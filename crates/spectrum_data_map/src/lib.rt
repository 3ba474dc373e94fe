// The data map of an SPC file unpacked (document 02, ticket 5; sources 000 and 001). Definitions: specs/.
#![tactic(auto)]

ghost use Rattle.std.specs.Prelude.{◌≡◌, ◌+◌, ◌≤◌, ◌<◌, length};
ghost use Rattle.lists.specs.Over.{over};
ghost use Rattle.outcome.specs.Outcome.{void};
ghost use Rattle.spectrum_data_map.specs.Records.{makes, takes, control, record_bytes};
ghost use Rattle.spectrum_data_map.specs.DataMap.{record_step, fill_map};

use outcome::{Reason, Refusal};

// The least control byte that begins a repeat; one below it begins a literal.
const LEAST_REPEAT: u8 = 128;

// How many bytes the record of a control byte makes.
#[tactic(auto, unfolding(crate::specs::Records::makes))]
fn made_by(x: u8) -> usize
    ensures { result ≡ makes x }
{
    if x < LEAST_REPEAT {
        x as usize + 1
    } else {
        256 - x as usize + 2
    }
}

// How many bytes of the map it takes up.
#[tactic(auto, unfolding(crate::specs::Records::takes))]
fn taken_by(x: u8) -> usize
    ensures { result ≡ takes x }
{
    if x < LEAST_REPEAT { x as usize + 2 } else { 2 }
}

// Judges the record at an offset, with `room` bytes still to make.
fn judge_record(map: &[u8], at: usize, room: usize) -> Result<(), Refusal>
    ensures { result ≡ void (record_step map.now at room) }
{
    if map.len() <= at {
        return Err(Reason::InputEnds.refuse_at(at));
    }
    let x = map[at];
    if room < made_by(x) {
        return Err(Reason::RecordCrosses.refuse_at(at));
    }
    if map.len() - at < taken_by(x) {
        return Err(Reason::InputEnds.refuse_at(at));
    }
    Ok(())
}

// Writes the bytes that a whole record at an offset makes to the front of an output.
fn put_record(map: &[u8], at: usize, out: &mut [u8])
    requires at_in_bounds { at < length map.now }
    requires at_in_bounds_2 { at + takes (control map.now at) ≤ length map.now }
    requires at_in_bounds_3 { makes (control map.now at) ≤ length out.old }
    ensures { out.new ≡ over (record_bytes map.now at) out.old }
{
    let x = map[at];
    if x < LEAST_REPEAT {
        copies::put_part(map, at + 1, made_by(x), out);
    } else {
        copies::put_run(map[at + 1], made_by(x), out);
    }
}

// Unpacks records from an offset of a map until the whole output is full. After a refusal the output holds what the
// records before it make: a caller that must leave an output as it was lends a buffer of its own.
pub fn unpack_map(map: &[u8], at: usize, out: &mut [u8]) -> Result<usize, Refusal>
    ensures answer { result ≡ (fill_map map.now at (length out.old)).ends }
    ensures bytes { out.new
        ≡ over (fill_map map.now at (length out.old)).made out.old }
{
    let size = out.len();
    let mut from = at;
    let mut to: usize = 0;
    // By while: the step is a record.
    while to < size {
        judge_record(map, from, size - to)?;
        let x = map[from];
        put_record(map, from, &mut out[to..]);
        from += taken_by(x);
        to += made_by(x);
    }
    Ok(from)
}
