// Tiny files, read (document 02, ticket 1; source 001, <Tiny>). Definitions: specs/ here and of tiny_runs.
#![tactic(auto)]

ghost use Rattle.std.specs.Prelude.{◌≡◌, ◌+◌, ◌*◌, ◌≤◌, ◌<◌, length};
ghost use Rattle.lists.specs.Over.{over};
ghost use Rattle.outcome.specs.Outcome.{map};
ghost use Rattle.lists.specs.Tabulate.{tabulate};
ghost use Rattle.words.specs.Word.{word_at, words_bytes};
ghost use Rattle.tiny_runs.specs.Expansion.{Counted};
ghost use Rattle.resolution.specs.Shapes.{screen_bytes};
ghost use Rattle.picture.specs.Reading.{picture_read, read_area};
ghost use Rattle.tiny.specs.Layout.{resolution_byte, palette_start, control_count, data_count, control_start};
ghost use Rattle.tiny.specs.Layout.{body_length};
ghost use Rattle.tiny.specs.ScreenWords.{screen_words, line_words, column_words, sets, groups, expanded_word};
ghost use Rattle.tiny.specs.Reading.{expanded, tiny_picture, read_runs, read_sections, read_tiny};

use outcome::{Reason, Refusal};
use picture::{Picture, PictureRead};
use resolution::SCREEN_BYTES;
use tiny_runs::{ControlBytes, DataWords, Expanded};

// The shortest header: the resolution byte, the palette and the two counts.
pub const SHORTEST_LENGTH: usize = 37;

// The highest resolution byte, and the highest of a file without rotation bytes.
pub const HIGHEST_BYTE: u8 = 5;

pub const HIGHEST_PLAIN: u8 = 2;

// There are as many resolutions.
const RESOLUTIONS: u8 = 3;

// Where the palette stands: after the resolution byte, or after that and four rotation bytes.
pub const PLAIN_PALETTE: u32 = 1;

pub const ROTATED_PALETTE: u32 = 5;

// From the palette's start on: the count of control bytes, the count of data words, the control bytes.
const CONTROL_COUNT_OFFSET: usize = 32;

const DATA_COUNT_OFFSET: usize = 34;

const CONTROL_OFFSET: usize = 36;

// Words of a screen.
const SCREEN_WORDS: usize = 16000;

// Of the expanded words, bytes of a set and of a column, which has one word of each line.
const SET_BYTES: usize = 8000;

const COLUMN_BYTES: usize = 400;

// There are as many sets; a group is four neighbouring words of a line, one of each set.
const SETS: usize = 4;

// Lines of a screen, groups of a line, and bytes of each.
const LINES: usize = 200;

const GROUPS: usize = 20;

const LINE_BYTES: usize = 160;

const GROUP_BYTES: usize = 8;

// ---- the header

// The first byte; 0 of an empty file.
fn resolution_byte(file: &[u8]) -> u8
    ensures { result ≡ resolution_byte file.now }
{
    words::byte_at(file, 0)
}

// Where the palette starts.
#[tactic(auto, unfolding(crate::specs::Layout::palette_start))]
fn palette_start(file: &[u8]) -> u32
    ensures { result ≡ palette_start file.now }
{
    if HIGHEST_PLAIN < resolution_byte(file) {
        return ROTATED_PALETTE;
    }
    PLAIN_PALETTE
}

// The count of control bytes.
// Beside `data_count`: each gives a type of its own, so that one for both is no plainer.
fn control_count(file: &[u8]) -> ControlBytes
    ensures result_value { result.0 ≡ control_count file.now }
    ensures result_bound { result.0 < 65536 }
{
    let at = palette_start(file) as usize + CONTROL_COUNT_OFFSET;
    ControlBytes(words::word_at(file, at) as usize)
}

// The count of data words.
// Beside `control_count`: each gives a type of its own, so that one for both is no plainer.
fn data_count(file: &[u8]) -> DataWords
    ensures result_value { result.0 ≡ data_count file.now }
    ensures result_bound { result.0 < 65536 }
{
    let at = palette_start(file) as usize + DATA_COUNT_OFFSET;
    DataWords(words::word_at(file, at) as usize)
}

// Where the control bytes start.
fn control_start(file: &[u8]) -> usize
    ensures { result ≡ control_start file.now }
{
    palette_start(file) as usize + CONTROL_OFFSET
}

// The length of both sections.
fn body_length(file: &[u8]) -> usize
    ensures value { result ≡ body_length file.now }
    ensures upper_bound { result < 196608 }
{
    let controls = control_count(file);
    let datas = data_count(file);
    controls.0 + datas.0 * 2
}

// The resolution and the palette.
fn picture_of(file: &[u8]) -> Picture
    ensures { result ≡ tiny_picture file.now }
{
    let number = resolution_byte(file) % RESOLUTIONS;
    let palette = picture::parts::palette_at(file, palette_start(file));
    picture::without_tail(number as u16, palette)
}

// ---- the sections expanded

// Expands the sections of a file.
fn expand_sections(file: &[u8], made: &mut [u8]) -> Expanded
    requires file_len { length file.now ≡ control_start file.now + body_length file.now }
    requires made_len { length made.old ≡ screen_bytes }
    ensures answer { Counted result (expanded file.now) }
    ensures made { made.new ≡ over (words_bytes (expanded file.now).made) made.old }
    ensures used { result.controls.0 < 65536 }
{
    let start = control_start(file);
    let controls = control_count(file);
    let middle = start + controls.0;
    tiny_runs::expand(&file[start..middle], &file[middle..], made)
}

// ---- the expanded words put into a screen

// Group g of line y: a word of each set.
fn put_group(made: &[u8], y: usize, g: usize, out: &mut [u8])
    requires y_lt_column_words { (y < column_words) × (g < groups) }
    requires screen_bytes_in_bounds { (screen_bytes ≤ length made.now) × (sets * 2 ≤ length out.old) }
    ensures { out.new
        ≡ over (words_bytes (tabulate sets
        (λ s. word_at made.now (expanded_word (y * line_words + (g * sets + s)) * 2)))) out.old }
{
    for s in 0..SETS {
        let at = g * COLUMN_BYTES + y * 2 + s * SET_BYTES;
        let word = words::word_of(made[at], made[at + 1]);
        [out[s * 2], out[s * 2 + 1]] = words::word_bytes(word);
    }
}

// Line y.
fn put_line(made: &[u8], y: usize, out: &mut [u8])
    requires { (y < column_words) × (screen_bytes ≤ length made.now) × (line_words * 2 ≤ length out.old) }
    ensures { out.new
        ≡ over (words_bytes (tabulate line_words
        (λ c. word_at made.now (expanded_word (y * line_words + c) * 2)))) out.old }
{
    for g in 0..GROUPS {
        put_group(made, y, g, &mut out[g * GROUP_BYTES..]);
    }
}

// The whole screen.
fn put_screen(made: &[u8], area: &mut [u8])
    requires { (screen_bytes ≤ length made.now) × (screen_bytes ≤ length area.old) }
    ensures { area.new
        ≡ over (words_bytes (tabulate screen_words (λ p. word_at made.now (expanded_word p * 2))))
        area.old }
{
    for y in 0..LINES {
        put_line(made, y, &mut area[y * LINE_BYTES..]);
    }
}

// ---- the file read

// The runs of a file whose sections have their lengths, expanded into bytes of the reader's own and then put into the
// area.
#[inline(never)]
#[tactic(auto, unfolding(crate::specs::Reading::read_runs))]
fn read_by_buffer(file: &[u8], area: &mut [u8]) -> Result<PictureRead, Refusal>
    requires file_len { length file.now ≡ control_start file.now + body_length file.now }
    requires screen_bytes_in_bounds { screen_bytes ≤ length area.old }
    ensures answer { result ≡ map picture_read (read_runs file.now (expanded file.now)) }
    ensures area { area.new
        ≡ read_area (read_runs file.now (expanded file.now)) area.old }
{
    let start = control_start(file);
    let mut made = [0u8; SCREEN_BYTES];
    let done = expand_sections(file, &mut made);
    if let Some(reason) = done.fault {
        return Err(reason.refuse_at(start + done.controls.0));
    }
    if done.datas.0 < data_count(file).0 || done.words < SCREEN_WORDS {
        return Err(Reason::SizeMismatch.refuse());
    }
    put_screen(&made, area);
    Ok(PictureRead {
        picture: picture_of(file),
        body: file.len() - start,
        records: done.runs,
    })
}

// The same, with an area cut to the screen.
fn read_runs(file: &[u8], area: &mut [u8]) -> Result<PictureRead, Refusal>
    requires file_len { length file.now ≡ control_start file.now + body_length file.now }
    requires screen_bytes_in_bounds { screen_bytes ≤ length area.old }
    ensures answer { result ≡ map picture_read (read_runs file.now (expanded file.now)) }
    ensures area { area.new
        ≡ read_area (read_runs file.now (expanded file.now)) area.old }
{
    // read_by_buffer is not inlined: its bytes stay out of the caller's stack frame.
    if SCREEN_BYTES < area.len() {
        return read_runs(file, &mut area[..SCREEN_BYTES]);
    }
    read_by_buffer(file, area)
}

// A file with an allowed resolution byte: the length that its counts give is judged.
#[tactic(auto, unfolding(crate::specs::Reading::read_sections))]
fn read_sections(file: &[u8], area: &mut [u8]) -> Result<PictureRead, Refusal>
    requires { screen_bytes ≤ length area.old }
    ensures answer { result ≡ map picture_read (read_sections file.now) }
    ensures area { area.new ≡ read_area (read_sections file.now) area.old }
{
    let start = control_start(file);
    if file.len() < start {
        return Err(Reason::WrongLength.refuse());
    }
    if file.len() - start != body_length(file) {
        return Err(Reason::WrongLength.refuse());
    }
    read_runs(file, area)
}

// Reads a file into the first 32,000 bytes of an area. All is judged before the first byte is written.
#[inline(never)]
#[tactic(auto, unfolding(crate::specs::Reading::read_tiny))]
pub fn read(file: &[u8], area: &mut [u8]) -> Result<PictureRead, Refusal>
    ensures answer { result ≡ map picture_read (read_tiny file.now (length area.old)) }
    ensures area { area.new
        ≡ read_area (read_tiny file.now (length area.old)) area.old }
{
    if area.len() < SCREEN_BYTES {
        return Err(Reason::AreaTooShort.refuse());
    }
    if file.len() < SHORTEST_LENGTH {
        return Err(Reason::WrongLength.refuse());
    }
    if HIGHEST_BYTE < resolution_byte(file) {
        return Err(Reason::UnknownResolution.refuse());
    }
    read_sections(file, area)
}
