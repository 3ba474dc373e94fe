// The colour words of a Spectrum 512 picture, of a pixel and of a scan line (document 02, ticket 5; sources 000 and
// 001). Definitions: specs/.
#![tactic(auto)]

ghost use Rattle.std.specs.Prelude.{◌≡◌, ◌||◌, ℕ, ◌+◌, ◌≤◌, ◌<◌, length, get_or, ltb};
ghost use Rattle.lists.specs.Over.{over};
ghost use Rattle.lists.specs.Tabulate.{tabulate};
ghost use Rattle.outcome.specs.Outcome.{void, later};
ghost use Rattle.resolution.specs.Shapes.{screen_bytes, height_of};
ghost use Rattle.resolution.specs.declared.Resolution.TheVariants.{Low};
ghost use Rattle.lines.specs.Registers.{pixel_bit, register};
ghost use Rattle.spectrum_positions.specs.Positions.{columns, position_of};
ghost use Rattle.spectrum_colour_map.specs.ColourMap.{palette_words};
ghost use Rattle.spectrum_colours.specs.Colours.{line_words, shown_word, without_palette};
ghost use Rattle.spectrum_colours.specs.Colours.{pixel_word, word_answer, line_of_words};

use outcome::{Reason, Refusal};
use resolution::{Resolution, SCREEN_BYTES};
use spectrum_colour_map::PALETTE_WORDS;
use spectrum_positions::COLUMNS;

// The palette words of a scan line: three palettes.
pub const LINE_WORDS: usize = 48;

// The scan lines; line 0 has no palette.
pub const LINES: usize = 200;

// The groups of 16 pixels in a scan line, and the bytes of a group: a word for each plane.
const GROUPS: usize = 20;

const GROUP_BYTES: usize = 8;

// The answer of a colour word question in C; the word is 0 of a refusal.
// C's struct: the exported function gives it back.
#[repr(C)]
#[derive(Clone, Copy)]
pub struct ColourWordAnswer {
    pub refusal: Refusal,
    pub word: u16,
}

impl From<Result<u16, Refusal>> for ColourWordAnswer {
    ghost from_gives = { λ given answer. answer ≡ word_answer given };

    fn from(given: Result<u16, Refusal>) -> ColourWordAnswer {
        match given {
            Ok(word) => ColourWordAnswer {
                refusal: outcome::none(),
                word,
            },
            Err(refusal) => ColourWordAnswer { refusal, word: 0 },
        }
    }
}

// Whether the screen or the palettes are too short.
fn areas_short(screen_len: usize, palettes_len: usize) -> bool
    ensures { result ≡ ltb screen_len screen_bytes || ltb palettes_len palette_words }
{
    screen_len < SCREEN_BYTES || palettes_len < PALETTE_WORDS
}

// Whether a scan line has no palette, or is not there.
fn without_palette(line: usize) -> bool
    ensures { result ≡ without_palette line }
{
    line == 0 || LINES <= line
}

// ---- a pixel

// Pixel k of a word of 16.
#[tactic(auto, unfolding(lines::specs::Registers::pixel_bit))]
fn pixel_bit(word: u16, k: usize) -> u16
    requires { k < 16 }
    ensures { (result ≡ pixel_bit word k) × (result < 2) }
{
    (word >> (15 - k)) % 2
}

// The register of a pixel.
fn pixel_register(screen: &[u8], column: usize, line: usize) -> u8
    requires { (column < columns) × (line < height_of Low) }
    ensures { result ≡ register screen.now Low column line }
{
    let at = (line * GROUPS + column / 16) * GROUP_BYTES;
    let k = column % 16;
    let first = pixel_bit(words::word_at(screen, at), k);
    let second = pixel_bit(words::word_at(screen, at + 2), k);
    let third = pixel_bit(words::word_at(screen, at + 4), k);
    let fourth = pixel_bit(words::word_at(screen, at + 6), k);
    (first + second * 2 + third * 4 + fourth * 8) as u8
}

// The word that a pixel shows.
#[tactic(auto, unfolding(crate::specs::Colours::shown_word))]
fn shown_word(screen: &[u8], palettes: &[u16], column: usize, line: usize) -> u16
    requires { (column < columns) × (0 < line) × (line < height_of Low) × (palette_words ≤ length palettes.now) }
    ensures { result ≡ shown_word screen.now palettes.now column line }
{
    let register = pixel_register(screen, column, line);
    let position = spectrum_positions::position_at(column as u16, register) as usize;
    palettes[LINE_WORDS * (line - 1) + position]
}

// The colour word of a pixel.
#[tactic(auto, unfolding(crate::specs::Colours::pixel_word))]
pub fn pixel_word(
    screen: &[u8],
    palettes: &[u16],
    column: usize,
    line: usize,
) -> Result<u16, Refusal>
    ensures { result ≡ pixel_word screen.now palettes.now column line }
{
    if areas_short(screen.len(), palettes.len()) {
        return Err(Reason::AreaTooShort.refuse());
    }
    if COLUMNS <= column || without_palette(line) {
        return Err(Reason::OutOfRange.refuse());
    }
    Ok(shown_word(screen, palettes, column, line))
}

// ---- a scan line

// The positions of a scan line's pixels, from the left: its registers, and in the place of each its position.
fn line_positions(screen: &[u8], line: usize) -> [u8; 320]
    requires { (screen_bytes ≤ length screen.now) × (line < height_of Low) }
    ensures { result ≡ tabulate columns (λ x. position_of x (register screen.now Low x line)) }
{
    let mut positions = [0u8; 320];
    let _ = lines::line_out(screen, Resolution::Low.number(), line, &mut positions);
    for x in 0..COLUMNS {
        positions[x] = spectrum_positions::position_at(x as u16, positions[x]) as u8;
    }
    positions
}

// The palette words at the positions of a line's pixels, whose palettes begin with word first, into out.
fn put_words(palettes: &[u16], first: usize, positions: &[u8; 320], out: &mut [u16])
    requires { (first + line_words ≤ palette_words) × (palette_words ≤ length palettes.now)
        × (columns ≤ length out.old) × ((x : ℕ) → get_or positions.now x 0 < line_words) }
    ensures { out.new
        ≡ over (tabulate columns (λ x. get_or palettes.now (first + get_or positions.now x 0) 0))
        out.old }
{
    for x in 0..COLUMNS {
        out[x] = palettes[first + positions[x] as usize];
    }
}

// The words that a scan line's pixels show, from the left, into out.
fn put_line(screen: &[u8], palettes: &[u16], line: usize, out: &mut [u16])
    requires { (screen_bytes ≤ length screen.now) × (palette_words ≤ length palettes.now) × (0 < line)
        × (line < height_of Low) × (columns ≤ length out.old) }
    ensures { out.new
        ≡ over (tabulate columns (λ x. shown_word screen.now palettes.now x line))
        out.old }
{
    let positions = line_positions(screen, line);
    put_words(palettes, LINE_WORDS * (line - 1), &positions, out);
}

// The colour words of a scan line, from the left, into the first 320 words of out.
#[tactic(auto, unfolding(crate::specs::Colours::line_of_words))]
pub fn line_words(
    screen: &[u8],
    palettes: &[u16],
    line: usize,
    out: &mut [u16],
) -> Result<(), Refusal>
    ensures value { result ≡ void (line_of_words screen.now palettes.now line
        (length out.old)) }
    ensures out_after { out.new ≡ later (line_of_words screen.now palettes.now line
        (length out.old)) (λ words. over words out.old) out.old }
{
    if areas_short(screen.len(), palettes.len()) {
        return Err(Reason::AreaTooShort.refuse());
    }
    if without_palette(line) {
        return Err(Reason::OutOfRange.refuse());
    }
    if out.len() < COLUMNS {
        return Err(Reason::AreaTooShort.refuse());
    }
    put_line(screen, palettes, line, out);
    Ok(())
}
