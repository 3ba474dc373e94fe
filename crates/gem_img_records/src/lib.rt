// The records of a GEM IMG file, and a line of them unpacked (document 02, ticket 11; source 002). Definitions: specs/.
#![tactic(auto)]

ghost use Rattle.std.specs.Prelude.{◌≡◌, ◌+◌, ◌≤◌, length};
ghost use Rattle.lists.specs.Over.{over};
ghost use Rattle.outcome.specs.Refusal.{number_of, number_if};
ghost use Rattle.gem_img_records.specs.Records.{control, record_at, is_scanline_run, solid_len, solid_byte, packed_len};
ghost use Rattle.gem_img_records.specs.Records.{line_len, line_bytes, misplaced_fault, fit_fault, fault};
ghost use Rattle.gem_img_records.specs.Line.{refusal_at, fill_line};

use outcome::{Reason, Refusal};

// The byte that begins a pattern or scanline run, and the one that begins a literal; any other begins a solid run.
const RUN_CONTROL: u8 = 0;

const LITERAL_CONTROL: u8 = 0x80;

// The high bit of a solid run's byte: its pixels are set. The bits below it are the length.
const SET_BIT: u8 = 128;

// The bytes of a scanline run: 00 00, the flag and the count.
pub const SCANLINE_RUN_LEN: usize = 4;

// What stands at an offset of a file.
#[derive(Clone, Copy, Debug, PartialEq, Eq)]
pub enum Record {
    // The line that it begins is used as often as its count says.
    ScanlineRun,
    // The pattern behind it n times.
    PatternRun(u8),
    // The n bytes behind it as they stand.
    Literal(u8),
    // Bytes of cleared or set pixels, by this control byte.
    SolidRun(u8),
}

// ---- a record

// The record that byte x begins, n being the byte behind it.
#[tactic(auto, unfolding(crate::specs::Records::control))]
fn control(x: u8, n: u8) -> Record
    ensures { result ≡ control x n }
{
    match (x, n) {
        (RUN_CONTROL, 0) => Record::ScanlineRun,
        (RUN_CONTROL, n) => Record::PatternRun(n),
        (LITERAL_CONTROL, n) => Record::Literal(n),
        _ => Record::SolidRun(x),
    }
}

// The record at an offset; a byte past the end counts as 0.
pub fn record_at(file: &[u8], at: usize) -> Record
    ensures { result ≡ record_at file.now at }
{
    control(
        words::byte_at(file, at),
        words::byte_at(file, at.saturating_add(1)),
    )
}

// Whether it is a scanline run.
pub fn is_scanline_run(r: Record) -> bool
    ensures { result ≡ is_scanline_run r }
{
    matches!(r, Record::ScanlineRun)
}

// The length of a solid run.
fn solid_len(x: u8) -> usize
    ensures { result ≡ solid_len x }
{
    (x % SET_BIT) as usize
}

// The byte that it repeats.
#[tactic(auto, unfolding(crate::specs::Records::solid_byte))]
fn solid_byte(x: u8) -> u8
    ensures { result ≡ solid_byte x }
{
    if x < SET_BIT { 0x00 } else { 0xFF }
}

// How many bytes of the file a record takes up, with patterns of so many bytes.
fn packed_len(r: Record, pattern: u16) -> usize
    ensures { result ≡ packed_len pattern r }
{
    match r {
        Record::ScanlineRun => SCANLINE_RUN_LEN,
        Record::PatternRun(_) => 2 + pattern as usize,
        Record::Literal(n) => 2 + n as usize,
        Record::SolidRun(_) => 1,
    }
}

// How many bytes of its line a record makes.
fn line_len(r: Record, pattern: u16) -> usize
    ensures { result ≡ line_len pattern r }
{
    match r {
        Record::ScanlineRun => 0,
        Record::PatternRun(n) => n as usize * pattern as usize,
        Record::Literal(n) => n as usize,
        Record::SolidRun(x) => solid_len(x),
    }
}

// Whether a record makes more bytes than there is room for, and then whether the file ends before it does.
fn fit_fault(r: Record, pattern: u16, left: usize, room: usize) -> Option<Reason>
    ensures { number_if result ≡ fit_fault pattern r left room }
{
    if room < line_len(r, pattern) {
        return Some(Reason::RecordCrosses);
    }
    if left < packed_len(r, pattern) {
        return Some(Reason::InputEnds);
    }
    None
}

// Why a scanline run is refused where none may stand: cut short, or out of place.
fn misplaced_fault(left: usize) -> Reason
    ensures { number_of result ≡ misplaced_fault left }
{
    if left < SCANLINE_RUN_LEN {
        return Reason::InputEnds;
    }
    Reason::WrongScanlineRun
}

// Why a record is refused, if it is, with `left` bytes of the file from its first byte on and `room` bytes of the line
// to make.
fn fault_of(r: Record, pattern: u16, left: usize, room: usize) -> Option<Reason>
    ensures { number_if result ≡ fault pattern r left room }
{
    if is_scanline_run(r) {
        return Some(misplaced_fault(left));
    }
    fit_fault(r, pattern, left, room)
}

// The refusal of a record at an offset: a wrong scanline run has no place.
// The refusal itself: callers put it into `Err`.
pub fn refusal_at(number: u8, at: usize) -> Refusal
    ensures { result ≡ refusal_at number at }
{
    if number == Reason::WrongScanlineRun as u8 {
        return outcome::refuse(number);
    }
    outcome::refuse_at(number, at)
}

// ---- what a record makes

// Writes the bytes of the line that a whole record at an offset makes to the front of an output.
fn put_line_bytes(file: &[u8], at: usize, r: Record, pattern: u16, out: &mut [u8])
    requires r_in_bounds { at + packed_len pattern r ≤ length file.now }
    requires r_in_bounds_2 { line_len pattern r ≤ length out.old }
    ensures { out.new ≡ over (line_bytes pattern r file.now at) out.old }
{
    match r {
        Record::ScanlineRun => {}
        Record::PatternRun(n) => copies::put_times(
            &file[at + 2..at + 2 + pattern as usize],
            n as usize,
            out,
        ),
        Record::Literal(n) => copies::put_part(file, at + 2, n as usize, out),
        Record::SolidRun(x) => copies::put_run(solid_byte(x), solid_len(x), out),
    }
}

// ---- a line

// Unpacks a line as long as the whole output, from an offset of a file; answers where its records end. After a refusal
// the output holds what the records before it make: a caller that must leave an output as it was lends a buffer of its
// own.
pub fn unpack_line(file: &[u8], at: usize, pattern: u16, line: &mut [u8]) -> Result<usize, Refusal>
    ensures answer { result ≡ (fill_line pattern file.now at (length line.old)).ends }
    ensures line { line.new
        ≡ over (fill_line pattern file.now at (length line.old)).made line.old }
{
    let width = line.len();
    let mut from = at;
    let mut to: usize = 0;
    // By while: the step is a record.
    while to < width {
        let r = record_at(file, from);
        if let Some(reason) = fault_of(r, pattern, file.len().saturating_sub(from), width - to) {
            return Err(refusal_at(reason.number(), from));
        }
        put_line_bytes(file, from, r, pattern, &mut line[to..]);
        from += packed_len(r, pattern);
        to += line_len(r, pattern);
    }
    Ok(from)
}
