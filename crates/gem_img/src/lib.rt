// GEM IMG files of the screen profile, read (document 02, ticket 11; source 002). Definitions: specs/.
#![tactic(auto)]

ghost use Rattle.std.specs.Prelude.{◌≡◌, ℕ, ◌*◌, ◌≤◌, length, Ok};
ghost use Rattle.lists.specs.Over.{over};
ghost use Rattle.lists.specs.Repeated.{repeated};
ghost use Rattle.outcome.specs.Outcome.{map};
ghost use Rattle.gem_img_records.specs.Line.{fill_line};
ghost use Rattle.gem_img.specs.Header.{most_line_bytes, header_bytes, in_profile, bytes_per_line};
ghost use Rattle.gem_img.specs.Accepts.{Profiled};
ghost use Rattle.gem_img.specs.Lines.{run_allowed, has_run, start_line, fill_lines};
ghost use Rattle.gem_img.specs.Reading.{area_bytes, fill_image, header_judged, read_lines, read_img};
ghost use Rattle.gem_img.specs.Reading.{img_size, given_img_answer, img_area};

use gem_img_records::SCANLINE_RUN_LEN;
use outcome::{Reason, Refusal};

// The area that is lent.
pub const AREA_BYTES: usize = 32000;

// The least header, in words and in bytes.
const LEAST_HEADER_WORDS: u16 = 8;

const LEAST_HEADER_BYTES: usize = 16;

// Where the header's words stand. Those at 8 and 10, a pixel's size, are not judged.
const VERSION_START: usize = 0;

const WORDS_START: usize = 2;

const PLANES_START: usize = 4;

const PATTERN_START: usize = 6;

const WIDTH_START: usize = 12;

const LINES_START: usize = 14;

// The version and the planes of the profile, and the most that it allows.
const VERSION: u16 = 1;

const PLANES: u16 = 1;

const MAX_PATTERN: u16 = 8;

pub const MAX_WIDTH: u16 = 640;

pub const MAX_LINES: u16 = 400;

// The bytes of the widest line.
const MAX_LINE_BYTES: usize = 80;

// The byte behind the 00 00 of a scanline run.
const SCANLINE_FLAG: u8 = 0xFF;

// What a file gives besides its lines' bytes: a line's pixels and the lines.
#[derive(Clone, Copy, Debug, PartialEq, Eq)]
pub struct ImgSize {
    pub width: u16,
    pub lines: u16,
}

// The answer that C gets of a file read: a line's pixels and the lines; both 0 of a refusal.
// C's struct: the exported function gives it back.
#[repr(C)]
#[derive(Clone, Copy)]
pub struct ImgAnswer {
    pub refusal: Refusal,
    pub width: u16,
    pub lines: u16,
}

impl From<Result<ImgSize, Refusal>> for ImgAnswer {
    ghost from_gives = { λ given answer. answer ≡ given_img_answer given };

    fn from(given: Result<ImgSize, Refusal>) -> ImgAnswer {
        match given {
            Ok(size) => ImgAnswer {
                refusal: outcome::none(),
                width: size.width,
                lines: size.lines,
            },
            Err(refusal) => ImgAnswer {
                refusal,
                width: 0,
                lines: 0,
            },
        }
    }
}

// ---- the header

// Whether the header is in the screen profile.
#[tactic(auto, unfolding(crate::specs::Header::in_profile, crate::specs::Header::up_to))]
fn in_profile(file: &[u8]) -> bool
    ensures { result ≡ in_profile file.now }
{
    words::word_at(file, VERSION_START) == VERSION
        && words::word_at(file, WORDS_START) >= LEAST_HEADER_WORDS
        && words::word_at(file, PLANES_START) == PLANES
        && (1..=MAX_PATTERN).contains(&words::word_at(file, PATTERN_START))
        && (1..=MAX_WIDTH).contains(&words::word_at(file, WIDTH_START))
        && (1..=MAX_LINES).contains(&words::word_at(file, LINES_START))
}

// The header's bytes.
fn header_bytes(file: &[u8]) -> usize
    ensures { result ≡ header_bytes file.now }
{
    words::word_at(file, WORDS_START) as usize * 2
}

// A line's bytes.
#[tactic(auto, unfolding(crate::specs::Header::bytes_per_line))]
fn bytes_per_line(width: u16) -> usize
    ensures { result ≡ bytes_per_line width }
{
    (width as usize + 7) / 8
}

// Judges the file's length, by itself and against the header that it names, then the profile.
#[tactic(auto, unfolding(crate::specs::Reading::header_judged))]
fn judge_header(file: &[u8]) -> Result<(), Refusal>
    ensures { result ≡ header_judged file.now }
{
    if file.len() < LEAST_HEADER_BYTES || file.len() < header_bytes(file) {
        return Err(Reason::WrongLength.refuse());
    }
    if !in_profile(file) {
        return Err(Reason::OutsideProfile.refuse());
    }
    Ok(())
}

// ---- the lines

// Where a line's records begin, and how many times the line is used.
#[derive(Clone, Copy)]
struct LineStart {
    first: usize,
    times: usize,
}

// Whether a scanline run with this flag and this count may stand where so many lines are left.
fn run_allowed(flag: u8, count: usize, left: usize) -> bool
    ensures { result ≡ run_allowed flag count left }
{
    flag == SCANLINE_FLAG && (1..=left).contains(&count)
}

// Whether the line at an offset begins with a scanline run.
fn has_run(file: &[u8], at: usize) -> bool
    ensures { result ≡ has_run file.now at }
{
    gem_img_records::is_scanline_run(gem_img_records::record_at(file, at))
}

// Judges that run, if there is one, where so many lines are left.
#[tactic(auto, unfolding(crate::specs::Lines::run_fault, crate::specs::Lines::records_from, crate::specs::Lines::times_used))]
fn start_line(file: &[u8], at: usize, left: usize) -> Result<LineStart, Refusal>
    ensures { result ≡ start_line file.now at left }
{
    if !has_run(file, at) {
        return Ok(LineStart {
            first: at,
            times: 1,
        });
    }
    if file.len().saturating_sub(at) < SCANLINE_RUN_LEN {
        return Err(gem_img_records::refusal_at(Reason::InputEnds.number(), at));
    }
    let count = file[at + 3] as usize;
    if !run_allowed(file[at + 2], count, left) {
        return Err(gem_img_records::refusal_at(Reason::WrongScanlineRun.number(), at));
    }
    Ok(LineStart {
        first: at + SCANLINE_RUN_LEN,
        times: count,
    })
}

// Unpacks the line whose records begin at an offset, as long as a buffer for one line, and writes it, so many times, to
// the front of an output; a line used once without the buffer. Answers where its records end. After a refusal anything
// may stand in both.
fn unpack_times(
    file: &[u8],
    start: LineStart,
    pattern: u16,
    line: &mut [u8],
    out: &mut [u8],
) -> Result<usize, Refusal>
    requires { start.times * length line.old ≤ length out.old }
    ensures answer { result
        ≡ (fill_line pattern file.now start.first (length line.old)).ends }
    ensures lines { (next : ℕ)
        → (fill_line pattern file.now start.first (length line.old)).ends ≡ Ok next
        → out.new ≡ over (repeated start.times
        (fill_line pattern file.now start.first (length line.old)).made) out.old }
{
    if start.times == 1 {
        let width = line.len();
        return gem_img_records::unpack_line(file, start.first, pattern, &mut out[..width]);
    }
    let next = gem_img_records::unpack_line(file, start.first, pattern, line)?;
    copies::put_times(line, start.times, out);
    Ok(next)
}

// Unpacks lines as long as a buffer for one line, from an offset of a file, to the front of an output. Answers where
// the last one ends. After a refusal anything may stand in both.
fn unpack_lines(
    file: &[u8],
    at: usize,
    pattern: u16,
    lines: usize,
    line: &mut [u8],
    out: &mut [u8],
) -> Result<usize, Refusal>
    requires at_in_bounds { at ≤ length file.now }
    requires line_in_bounds { lines * length line.old ≤ length out.old }
    ensures answer { result
        ≡ (fill_lines pattern (length line.old) file.now at lines).ends }
    ensures lines { (end : ℕ)
        → (fill_lines pattern (length line.old) file.now at lines).ends ≡ Ok end
        → out.new
        ≡ over (fill_lines pattern (length line.old) file.now at lines).made
        out.old }
{
    let width = line.len();
    let mut from = at;
    let mut to: usize = 0;
    let mut left = lines;
    // By while: the step is as many lines as one line stands for.
    while 0 < left {
        let start = start_line(file, from, left)?;
        from = unpack_times(file, start, pattern, line, &mut out[to..])?;
        to += start.times * width;
        left -= start.times;
    }
    Ok(from)
}

// ---- a file

// Unpacks the lines of a file whose header is judged to the front of an output, with a buffer for one line. Answers
// where the last one ends. After a refusal anything may stand in both. A function of its own: lent as a prefix of the
// array where that stands, the buffer leaves the check goals that it cannot read.
fn unpack_image(file: &[u8], line: &mut [u8], out: &mut [u8]) -> Result<usize, Refusal>
    requires header { header_bytes file.now ≤ length file.now }
    requires profiled { Profiled file.now }
    requires line_room { most_line_bytes ≤ length line.old }
    requires out_room { area_bytes ≤ length out.old }
    ensures answer { result ≡ (fill_image file.now).ends }
    ensures lines { (end : ℕ) → (fill_image file.now).ends ≡ Ok end
        → out.new ≡ over (fill_image file.now).made out.old }
{
    let bytes = bytes_per_line(words::word_at(file, WIDTH_START));
    let lines = words::word_at(file, LINES_START) as usize;
    let pattern = words::word_at(file, PATTERN_START);
    unpack_lines(
        file,
        header_bytes(file),
        pattern,
        lines,
        &mut line[..bytes],
        out,
    )
}

// Reads the lines of a file whose header is judged, by way of buffers, and judges what stands behind the last line. All
// is judged before the first byte of the area is written. Not inlined, so that its buffers stay out of the caller's
// stack frame.
#[inline(never)]
fn read_by_buffer(file: &[u8], area: &mut [u8]) -> Result<ImgSize, Refusal>
    requires header { header_bytes file.now ≤ length file.now }
    requires profiled { Profiled file.now }
    requires area_room { area_bytes ≤ length area.old }
    ensures answer { result ≡ map img_size (read_lines file.now) }
    ensures area { area.new ≡ img_area (read_lines file.now) area.old }
{
    let mut line = [0u8; MAX_LINE_BYTES];
    let mut made = [0u8; AREA_BYTES];
    let end = unpack_image(file, &mut line, &mut made)?;
    if end < file.len() {
        return Err(Reason::WrongTail.refuse_at(end));
    }
    let width = words::word_at(file, WIDTH_START);
    let lines = words::word_at(file, LINES_START);
    let all = lines as usize * bytes_per_line(width);
    copies::put_part(&made, 0, all, area);
    Ok(ImgSize { width, lines })
}

// Reads a file into the front of an area of 32,000 bytes or more, lines packed one after another. All is judged before
// the first byte is written.
pub fn read(file: &[u8], area: &mut [u8]) -> Result<ImgSize, Refusal>
    ensures answer { result ≡ map img_size (read_img file.now (length area.old)) }
    ensures area { area.new
        ≡ img_area (read_img file.now (length area.old)) area.old }
{
    if area.len() < AREA_BYTES {
        return Err(Reason::AreaTooShort.refuse());
    }
    judge_header(file)?;
    read_by_buffer(file, area)
}
