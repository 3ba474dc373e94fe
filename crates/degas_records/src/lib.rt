// The records of a packed DEGAS file, one at a time, for finding where a damaged one fails. Definitions: specs/.
#![tactic(auto)]

ghost use Rattle.std.specs.Prelude.{◌≡◌, ◌+◌, ◌<◌, ◌^◌};
ghost use Rattle.outcome.specs.Outcome.{map};
ghost use Rattle.packbits.specs.Records.{packed_len, row_len};
ghost use Rattle.degas_records.specs.Opening.{packed_opening};
ghost use Rattle.degas_records.specs.Listing.{listed_kind, listed_as, moved_over, record_under, first_cursor};
ghost use Rattle.degas_records.specs.Steps.{record_step, end_at, outside, body_step, stepped};
ghost use Rattle.degas_records.specs.Answers.{given_cursor_answer, no_record, record_answer};

use degas::{HEADER_LENGTH, PACKED_MOST, TAIL_LENGTH};
use outcome::{Reason, Refusal};
use packbits::Record;
use resolution::Resolution;

// What a record does: takes bytes as they stand, takes one byte several times, or nothing. Its number in C's answer,
// where 0 is no record.
#[derive(Clone, Copy, Debug, PartialEq, Eq)]
pub enum RecordKind {
    Literal = 1,
    Repeat = 2,
    Nothing = 3,
}

// A whole record: its kind, the offset of its control byte, its plane row, and how many bytes of the row it makes. In
// this order it lies in memory as a refusal does, so that a step's answer is put together without odd pieces.
#[derive(Clone, Copy, Debug, PartialEq, Eq)]
pub struct ListedRecord {
    pub kind: RecordKind,
    pub offset: usize,
    pub plane_row: usize,
    pub length: usize,
}

// Where the next step stands: an offset of the file, the plane row there, and the bytes that this row has.
#[repr(C)]
#[derive(Clone, Copy, Debug, PartialEq, Eq)]
pub struct RecordCursor {
    pub offset: usize,
    pub plane_row: usize,
    pub good_bytes: usize,
}

// What a step gives: a record, after the last one none, or the refusal; and where the next step stands: after the last
// record or a refusal where this one stood.
#[derive(Clone, Copy)]
pub struct Stepped {
    pub found: Result<Option<ListedRecord>, Refusal>,
    pub next: RecordCursor,
}

// The answer of an opening in C: the cursor before the first record, all 0 of a refusal.
// C's struct: the exported function gives it back.
#[repr(C)]
#[derive(Clone, Copy)]
pub struct CursorAnswer {
    pub refusal: Refusal,
    pub cursor: RecordCursor,
}

// The answer of a step in C: a record's kind, offset, plane row and length; all 0 after the last one and of a refusal.
// C's struct: the exported function gives it back.
#[repr(C)]
#[derive(Clone, Copy)]
pub struct RecordAnswer {
    pub refusal: Refusal,
    pub kind: u8,
    pub offset: usize,
    pub plane_row: usize,
    pub length: usize,
    pub next: RecordCursor,
}

impl From<Result<RecordCursor, Refusal>> for CursorAnswer {
    ghost from_gives = { λ given answer. answer ≡ given_cursor_answer given };

    fn from(given: Result<RecordCursor, Refusal>) -> CursorAnswer {
        match given {
            Ok(cursor) => CursorAnswer {
                refusal: outcome::none(),
                cursor,
            },
            Err(refusal) => CursorAnswer {
                refusal,
                cursor: RecordCursor {
                    offset: 0,
                    plane_row: 0,
                    good_bytes: 0,
                },
            },
        }
    }
}

impl From<Stepped> for RecordAnswer {
    ghost from_gives = { λ step answer. answer ≡ record_answer step };

    fn from(step: Stepped) -> RecordAnswer {
        match step.found {
            Ok(Some(listed)) => RecordAnswer {
                refusal: outcome::none(),
                kind: listed.kind as u8,
                offset: listed.offset,
                plane_row: listed.plane_row,
                length: listed.length,
                next: step.next,
            },
            Ok(None) => no_record(outcome::none(), step.next),
            Err(refusal) => no_record(refusal, step.next),
        }
    }
}

// The answer of a step that found no record.
// C's struct: put together here for both cases without a record.
fn no_record(refusal: Refusal, next: RecordCursor) -> RecordAnswer
    ensures { result ≡ no_record refusal next }
{
    RecordAnswer {
        refusal,
        kind: 0,
        offset: 0,
        plane_row: 0,
        length: 0,
        next,
    }
}

// Judges the length and the first word of a file whose records are asked for: packed, and no longer than a packed file
// can be.
#[tactic(auto, unfolding(crate::specs::Opening::packed_opening))]
pub fn open_packed(file: &[u8]) -> Result<Resolution, Refusal>
    ensures { result ≡ packed_opening file.now }
{
    let header = degas::open_file(file)?;
    if !header.packed {
        return Err(Reason::UnknownKind.refuse());
    }
    if PACKED_MOST < file.len() {
        return Err(Reason::WrongLength.refuse());
    }
    Ok(header.resolution)
}

// Opens a packed file: the cursor before its first record, or the refusal.
pub fn open_records(file: &[u8]) -> Result<RecordCursor, Refusal>
    ensures { result ≡ map (λ _. first_cursor) (packed_opening file.now) }
{
    open_packed(file)?;
    Ok(RecordCursor {
        offset: HEADER_LENGTH,
        plane_row: 0,
        good_bytes: 0,
    })
}

// The kind of a whole record.
fn listed_kind(r: Record) -> RecordKind
    ensures { result ≡ listed_kind r }
{
    match r {
        Record::Literal(_) => RecordKind::Literal,
        Record::Repeat(_) => RecordKind::Repeat,
        Record::Nothing | Record::Truncated | Record::Crossing => RecordKind::Nothing,
    }
}

// The record at a cursor, as it is listed.
fn listed_as(cursor: RecordCursor, r: Record) -> ListedRecord
    ensures { result ≡ listed_as cursor r }
{
    ListedRecord {
        kind: listed_kind(r),
        offset: cursor.offset,
        plane_row: cursor.plane_row,
        length: packbits::row_len(r),
    }
}

// The cursor after a whole record: a row is finished the moment it is full.
#[tactic(auto, unfolding(crate::specs::Listing::moved_over))]
fn moved_over(width: usize, cursor: RecordCursor, r: Record) -> RecordCursor
    requires r_bound { cursor.offset + packed_len r < 2 ^ 64 }
    requires plane_row_bound { cursor.plane_row + 1 < 2 ^ 64 }
    requires r_bound_2 { cursor.good_bytes + row_len r < 2 ^ 64 }
    ensures { result ≡ moved_over width cursor r }
{
    let offset = cursor.offset + packbits::packed_len(r);
    let good_bytes = cursor.good_bytes + packbits::row_len(r);
    if good_bytes < width {
        return RecordCursor {
            offset,
            plane_row: cursor.plane_row,
            good_bytes,
        };
    }
    RecordCursor {
        offset,
        plane_row: cursor.plane_row + 1,
        good_bytes: 0,
    }
}

// A step that finds a record, whole or at fault.
fn record_step(file: &[u8], width: usize, cursor: RecordCursor) -> Stepped
    requires good_bytes_bound { cursor.good_bytes < width }
    requires plane_row_bound { cursor.plane_row + 1 < 2 ^ 64 }
    ensures { result ≡ record_step width cursor (record_under file.now width cursor) }
{
    let r = packbits::record_at(file, cursor.offset, width - cursor.good_bytes);
    match packbits::fault_of(r) {
        Some(reason) => Stepped {
            found: Err(reason.refuse_in_row(cursor.offset, cursor.plane_row, cursor.good_bytes)),
            next: cursor,
        },
        None => Stepped {
            found: Ok(Some(listed_as(cursor, r))),
            next: moved_over(width, cursor, r),
        },
    }
}

// After the last plane row exactly 32 bytes of a file of so many.
#[tactic(auto, unfolding(crate::specs::Steps::end_at))]
fn end_at(size: usize, at: usize) -> Result<Option<ListedRecord>, Refusal>
    ensures { result ≡ end_at size at }
{
    if size < at || size - at != TAIL_LENGTH {
        return Err(Reason::WrongTail.refuse_at(at));
    }
    Ok(None)
}

// Whether a cursor is out of range, in a file of so many bytes and rows of a width: before the body or behind the file,
// past the place after the last plane row, or in a row that is full.
#[tactic(auto, unfolding(crate::specs::Steps::outside))]
fn is_outside(size: usize, rows: usize, width: usize, cursor: RecordCursor) -> bool
    ensures { result ≡ outside size rows width cursor }
{
    cursor.offset < HEADER_LENGTH
        || size < cursor.offset
        || rows < cursor.plane_row
        || width <= cursor.good_bytes
}

// A step over so many rows of a width.
#[tactic(auto, unfolding(crate::specs::Steps::body_step))]
fn body_step(file: &[u8], rows: usize, width: usize, cursor: RecordCursor) -> Stepped
    ensures { result ≡ body_step file.now rows width cursor }
{
    if is_outside(file.len(), rows, width, cursor) {
        return Stepped {
            found: Err(Reason::OutOfRange.refuse()),
            next: cursor,
        };
    }
    if cursor.plane_row < rows {
        return record_step(file, width, cursor);
    }
    Stepped {
        found: end_at(file.len(), cursor.offset),
        next: cursor,
    }
}

// A step from a cursor. The opening is judged at each, so that any cursor may come.
#[tactic(auto, unfolding(crate::specs::Steps::stepped))]
pub fn next_record(file: &[u8], cursor: RecordCursor) -> Stepped
    ensures { result ≡ stepped file.now cursor }
{
    match open_packed(file) {
        Ok(r) => body_step(file, r.plane_rows(), r.row_bytes(), cursor),
        Err(why) => Stepped {
            found: Err(why),
            next: cursor,
        },
    }
}
