// PackBits records: what a control byte says, and the record at an offset of a file. Definitions: specs/. Rows are
// unpacked in the crate unpack and packed in the crate pack.
#![tactic(auto)]

ghost use Rattle.std.specs.Prelude.{◌≡◌, ◌<◌, drop};
ghost use Rattle.packbits.specs.Records.{control, packed_len, row_len, fault_of, judged, record_at};
ghost use Rattle.packbits.specs.Row.{given_row_answer, width_out_of_range};

use outcome::{Reason, Refusal};

// The widest row.
pub const MAX_WIDTH: usize = 128;

// What stands at a control byte, with some room left in the row.
#[derive(Clone, Copy)]
pub enum Record {
    // The next n bytes as they stand.
    Literal(u8),
    // The next byte n times.
    Repeat(u8),
    // The control byte alone, which makes nothing.
    Nothing,
    // Refused with 6: the input ends before the record does.
    Truncated,
    // Refused with 7: the record makes more bytes than there is room for.
    Crossing,
}

// What packing or unpacking gives: the packed bytes, written or used, and their records, those that do nothing included.
#[derive(Clone, Copy)]
pub struct Packed {
    pub bytes: usize,
    pub records: usize,
}

// The answer in C of a row packed or unpacked: what that gives; both 0 of a refusal.
// C's struct: exported functions give it back.
#[repr(C)]
#[derive(Clone, Copy)]
pub struct RowAnswer {
    pub refusal: Refusal,
    pub bytes: usize,
    pub records: usize,
}

impl From<Result<Packed, Refusal>> for RowAnswer {
    ghost from_gives = { λ given answer. answer ≡ given_row_answer given };

    fn from(given: Result<Packed, Refusal>) -> RowAnswer {
        match given {
            Ok(packed) => RowAnswer {
                refusal: outcome::none(),
                bytes: packed.bytes,
                records: packed.records,
            },
            Err(refusal) => RowAnswer {
                refusal,
                bytes: 0,
                records: 0,
            },
        }
    }
}

// Whether a row of this width is refused.
pub fn width_out_of_range(width: usize) -> bool
    ensures { result ≡ width_out_of_range width }
{
    width == 0 || MAX_WIDTH < width
}

// How many bytes of input a record takes up, its control byte included.
pub fn packed_len(r: Record) -> usize
    ensures { result ≡ packed_len r }
{
    match r {
        Record::Literal(n) => n as usize + 1,
        Record::Repeat(_) => 2,
        Record::Nothing => 1,
        Record::Truncated | Record::Crossing => 0,
    }
}

// How many bytes of the row a record makes.
pub fn row_len(r: Record) -> usize
    ensures { result ≡ row_len r }
{
    match r {
        Record::Literal(n) => n as usize,
        Record::Repeat(n) => n as usize,
        Record::Nothing => 0,
        Record::Truncated | Record::Crossing => 0,
    }
}

// Why a record is refused; none of a whole one.
pub fn fault_of(r: Record) -> Option<Reason>
    ensures { result ≡ fault_of r }
{
    match r {
        Record::Literal(_) | Record::Repeat(_) | Record::Nothing => None,
        Record::Truncated => Some(Reason::InputEnds),
        Record::Crossing => Some(Reason::RecordCrosses),
    }
}

// The record that control byte x begins, or its fault; left counts the input's bytes from x on, x included. The row's
// end is judged before missing input.
#[tactic(auto, unfolding(crate::specs::Records::control))]
fn record_of(x: u8, left: usize, room: usize) -> Record
    requires { 0 < left }
    ensures { result ≡ judged (control x) left room }
{
    if x < 128 {
        let n = x + 1;
        if room < n as usize {
            return Record::Crossing;
        }
        if left <= n as usize {
            return Record::Truncated;
        }
        return Record::Literal(n);
    }
    if x == 128 {
        return Record::Nothing;
    }
    let times = 255 - x + 2;
    if room < times as usize {
        return Record::Crossing;
    }
    if left < 2 {
        return Record::Truncated;
    }
    Record::Repeat(times)
}

// The record whose control byte stands at an offset.
#[tactic(auto, unfolding(crate::specs::Records::record_at))]
pub fn record_at(file: &[u8], at: usize, room: usize) -> Record
    ensures { result ≡ record_at (drop at file.now) room }
{
    if file.len() <= at {
        return Record::Truncated;
    }
    record_of(file[at], file.len() - at, room)
}
