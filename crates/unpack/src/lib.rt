// PackBits rows unpacked: one over an output as wide as the row, or to the front of a longer one; several of one width,
// each behind the one before it. Definitions: specs/ here and of packbits.
#![tactic(auto)]

ghost use Rattle.std.specs.Prelude.{◌≡◌, ◌+◌, ◌-◌, ◌*◌, ◌/◌, ◌≤◌, ◌<◌, false, length, take, drop, replicate};
ghost use mathlib.Core.List.{flatten};
ghost use Rattle.lists.specs.Over.{over};
ghost use Rattle.outcome.specs.Outcome.{row_refusal, map};
ghost use Rattle.packbits.specs.Records.{packed_len, row_len, row_bytes, record_at};
ghost use Rattle.packbits.specs.Row.{row_packed, row_output};
ghost use Rattle.packbits.specs.Unpack.{progress, unpack, unpack_at, unpack_row};
ghost use Rattle.packbits.specs.Rows.{rows_packed, unpack_rows_at};
ghost use Rattle.unpack.specs.Rows.{Begins, whole_rows, judge_rows, RowsFit, RowsRead, long};

use outcome::{Reason, Refusal};
use packbits::{MAX_WIDTH, Packed, Record};

// Writes the bytes of the row that a whole record makes to the front of an output.
fn put_row_bytes(file: &[u8], at: usize, r: Record, out: &mut [u8])
    requires r_in_bounds { at + packed_len r ≤ length file.now }
    requires r_in_bounds_2 { row_len r ≤ length out.old }
    ensures { out.new ≡ over (row_bytes r (drop at file.now)) out.old }
{
    match r {
        Record::Literal(n) => copies::put_part(file, at + 1, n as usize, out),
        Record::Repeat(n) => copies::put_run(file[at + 1], n as usize, out),
        Record::Nothing | Record::Truncated | Record::Crossing => {}
    }
}

// Unpacks a row as wide as the whole output, from an offset of a file. After a refusal the output holds the bytes of
// the row's whole records: a caller that must leave an output as it was lends a buffer of its own.
pub fn unpack_into(file: &[u8], at: usize, out: &mut [u8]) -> Result<Packed, Refusal>
    ensures answer { result ≡ map row_packed (unpack_at file.now at (length out.old)) }
    ensures row { out.new
        ≡ over (progress (drop at file.now) (length out.old)).made out.old }
{
    let width = out.len();
    let mut from = at;
    let mut to: usize = 0;
    let mut records: usize = 0;
    // By while: the step is a record.
    while to < width {
        let r = packbits::record_at(file, from, width - to);
        if let Some(reason) = packbits::fault_of(r) {
            return Err(reason.refuse_in_row(from, 0, to));
        }
        put_row_bytes(file, from, r, &mut out[to..]);
        from += packbits::packed_len(r);
        to += packbits::row_len(r);
        records += 1;
    }
    Ok(Packed {
        bytes: from - at,
        records,
    })
}

// Unpacks a row as wide as a buffer into it, and copies it from there once it is whole.
fn unpack_through(packed: &[u8], row: &mut [u8], out: &mut [u8]) -> Result<Packed, Refusal>
    requires { length row.old ≤ length out.old }
    ensures value { result ≡ map row_packed (unpack packed.now (length row.old)) }
    ensures out_after { out.new
        ≡ row_output (unpack packed.now (length row.old)) out.old }
{
    let unpacked = unpack_into(packed, 0, row)?;
    byte_copy::copy(row, out);
    Ok(unpacked)
}

// Unpacks one row to a named width. The output is written once the row is whole, so that a refusal changes nothing.
// Input left after the full row is allowed.
#[tactic(auto, unfolding(packbits::specs::Unpack::unpack_row))]
pub fn unpack_row(packed: &[u8], width: usize, out: &mut [u8]) -> Result<Packed, Refusal>
    ensures value { result ≡ map row_packed (unpack_row packed.now width (length out.old)) }
    ensures out_after { out.new
        ≡ row_output (unpack_row packed.now width (length out.old)) out.old }
{
    if packbits::width_out_of_range(width) {
        return Err(Reason::OutOfRange.refuse());
    }
    if out.len() < width {
        return Err(Reason::AreaTooShort.refuse());
    }
    let mut row = [0u8; MAX_WIDTH];
    unpack_through(packed, &mut row[..width], out)
}

// The most bytes that a record takes up.
const LONGEST_RECORD: usize = 129;

// Unpacking ahead begins a row where the rows have so many bytes left: the row's 128 at most, and 128 more that it may
// write behind it.
const ROWS_AHEAD: usize = 256;

// How far rows are unpacked.
#[derive(Clone, Copy)]
struct Reached {
    // The offset of the next record.
    from: usize,
    // The bytes made.
    to: usize,
    // The bytes that the row under way lacks; a whole row's where none is under way.
    room: usize,
    // The records.
    records: usize,
}

// One byte N times to the front of an output.
fn put_block<const N: usize>(byte: u8, out: &mut [u8])
    requires { N ≤ length out.old }
    ensures { out.new ≡ over (replicate N byte) out.old }
{
    byte_copy::copy(&[byte; N], out);
}

// Writes one byte n times, or more often: a constant number of times, which costs less than a loop.
fn put_blocks(byte: u8, n: usize, out: &mut [u8])
    requires { (n ≤ 128) × (128 ≤ length out.old) }
    ensures { take n out.new ≡ replicate n byte }
{
    if n <= 16 {
        put_block::<16>(byte, out);
    } else if n <= 32 {
        put_block::<32>(byte, out);
    } else {
        put_block::<128>(byte, out);
    }
}

// Whether a record is at fault, or a literal of more than eight bytes.
// By match: `matches!` with the bound of one variant is no plainer.
fn is_long(r: Record) -> bool
    ensures { result ≡ long r }
{
    match r {
        Record::Literal(n) => 8 < n,
        Record::Repeat(_) | Record::Nothing => false,
        Record::Truncated | Record::Crossing => true,
    }
}

// Eight bytes from an offset of a file to the front of an output. By way of an array, so that the compiler need not ask
// whether file and output overlap, and makes it one load and one store.
fn put_eight(file: &[u8], at: usize, out: &mut [u8])
    requires { (at + 8 ≤ length file.now) × (8 ≤ length out.old) }
    ensures { out.new ≡ over (take 8 (drop at file.now)) out.old }
{
    let mut eight = [0u8; 8];
    byte_copy::copy(&file[at..at + 8], &mut eight);
    byte_copy::copy(&eight, out);
}

// Writes the bytes of the row that a record, no long one, makes to the front of an output. What stands behind them may
// change too.
fn put_short(file: &[u8], at: usize, r: Record, out: &mut [u8])
    requires r_value { (long r ≡ false) × (at + 9 ≤ length file.now) }
    requires r_bound { (row_len r ≤ 128) × (128 ≤ length out.old) }
    ensures { take (row_len r) out.new ≡ row_bytes r (drop at file.now) }
{
    match r {
        Record::Literal(_) => put_eight(file, at + 1, out),
        Record::Repeat(n) => put_blocks(file[at + 1], n as usize, out),
        Record::Nothing | Record::Truncated | Record::Crossing => {}
    }
}

// The record at an offset behind which the input has 129 bytes at least, as many as a record can take up: the compiler
// then tests none of them.
fn record_ahead(file: &[u8], at: usize, room: usize) -> Record
    requires { at + 129 ≤ length file.now }
    ensures { result ≡ record_at (drop at file.now) room }
{
    let end = at + LONGEST_RECORD;
    packbits::record_at(&file[at..end], 0, room)
}

// Unpacks further, without a call, until a long record follows or the input or the rows are about to end. The bytes
// behind those made may change too.
fn unpack_ahead(
    file: &[u8],
    at: usize,
    rows: usize,
    width: usize,
    reached: Reached,
    out: &mut [u8],
) -> Reached
    requires rows_fit { RowsFit rows width (length out.old) }
    requires rows_read { RowsRead file.now at rows width out.old
        reached.from reached.to reached.room reached.records }
    requires room_nonzero { (0 < reached.room) × (reached.to < rows * width) }
    ensures rows_read_2 { RowsRead file.now at rows width out.new
        result.from result.to result.room result.records }
    ensures room_nonzero_2 { (0 < result.room) × (result.to < rows * width) × (reached.to ≤ result.to) }
{
    let left = rows * width - reached.to;
    if left < ROWS_AHEAD || file.len() < LONGEST_RECORD {
        return reached;
    }
    let last_row = rows * width - ROWS_AHEAD;
    let last_control = file.len() - LONGEST_RECORD;
    let mut next = reached;
    // By while: the step is a record.
    while next.from <= last_control {
        let r = record_ahead(file, next.from, next.room);
        if is_long(r) {
            return next;
        }
        put_short(file, next.from, r, &mut out[next.to..]);
        next.from += packbits::packed_len(r);
        next.to += packbits::row_len(r);
        next.room -= packbits::row_len(r);
        next.records += 1;
        if next.room == 0 {
            next.room = width;
            if last_row < next.to {
                return next;
            }
        }
    }
    next
}

// The refusal of rows of a width in the row that follows `to` bytes, of which `room` were wanted, from that row's own
// refusal.
// From refusal to refusal: the caller puts it into `Err`.
fn refused_in_rows(why: Refusal, width: usize, to: usize, room: usize) -> Refusal
    requires { (0 < width) × (room ≤ width) × (why.good_bytes ≤ room) }
    ensures { result ≡ row_refusal why.number why.place (to / width) (width - room + why.good_bytes) }
{
    Refusal {
        plane_row: to / width,
        good_bytes: width - room + why.good_bytes,
        ..why
    }
}

// Unpacks rows that fit.
fn fill_rows(
    file: &[u8],
    at: usize,
    rows: usize,
    width: usize,
    out: &mut [u8],
) -> Result<Packed, Refusal>
    requires { RowsFit rows width (length out.old) }
    ensures value { result ≡ map rows_packed (unpack_rows_at file.now at width rows) }
    ensures begins { Begins (flatten (whole_rows file.now at rows width)) out.new }
{
    let end = rows * width;
    let mut reached = Reached {
        from: at,
        to: 0,
        room: width,
        records: 0,
    };
    // By while: the step is what is unpacked ahead and the rest of its row.
    while reached.to < end {
        let ahead = unpack_ahead(file, at, rows, width, reached, out);
        let next = ahead.to + ahead.room;
        let row = match unpack_into(file, ahead.from, &mut out[ahead.to..next]) {
            Ok(row) => row,
            Err(why) => return Err(refused_in_rows(why, width, ahead.to, ahead.room)),
        };
        reached = Reached {
            from: ahead.from + row.bytes,
            to: next,
            room: width,
            records: ahead.records + row.records,
        };
    }
    Ok(Packed {
        bytes: reached.from - at,
        records: reached.records,
    })
}

// Unpacks rows of one width from an offset of a file to the front of an output, each behind the one before it. After a
// record at fault the output holds the rows before it. What stands behind the rows may change too: a caller that must
// leave an output as it was lends a buffer of its own.
#[tactic(auto, unfolding(crate::specs::Rows::judge_rows))]
pub fn unpack_rows(
    file: &[u8],
    at: usize,
    rows: usize,
    width: usize,
    out: &mut [u8],
) -> Result<Packed, Refusal>
    ensures answer { result ≡ map rows_packed (judge_rows rows width (length out.old)
        (unpack_rows_at file.now at width rows)) }
    ensures rows { RowsFit rows width (length out.old)
        → Begins (flatten (whole_rows file.now at rows width)) out.new }
{
    if packbits::width_out_of_range(width) {
        return Err(Reason::OutOfRange.refuse());
    }
    if out.len() / width < rows {
        return Err(Reason::AreaTooShort.refuse());
    }
    fill_rows(file, at, rows, width, out)
}
