// The colour map of an SPC file read (document 02, ticket 5; sources 000 and 001). Definitions: specs/.
#![tactic(auto)]

ghost use Rattle.std.specs.Prelude.{◌≡◌, ℕ, ◌+◌, ◌*◌, ◌≤◌, ◌<◌, cond, length, ltb, eqb, Ok};
ghost use Rattle.lists.specs.Over.{over};
ghost use Rattle.outcome.specs.Outcome.{void};
ghost use Rattle.words.specs.Word.{word_at};
ghost use Rattle.spectrum_colour_map.specs.Vector.{bit, named};
ghost use Rattle.spectrum_colour_map.specs.Palettes.{palette_end, palettes, judge_palette, judge_palettes};
ghost use Rattle.spectrum_colour_map.specs.Palettes.{PaletteWritten};
ghost use Rattle.spectrum_colour_map.specs.ColourMap.{no_palette, judge_map, read_map, map_area};

use outcome::{Reason, Refusal};

// The entries of a palette.
const ENTRIES: usize = 16;

// Three palettes for each of the scan lines 1 to 199.
const PALETTE_COUNT: usize = 597;

// The words of all palettes.
pub const PALETTE_WORDS: usize = 9552;

// The bytes of a vector, and those of a word behind it.
const VECTOR_BYTES: usize = 2;

const WORD_BYTES: usize = 2;

// The bit that no vector may have.
const UNUSED_ENTRY: usize = 15;

// ---- a palette judged

// The word at an offset inside a file.
#[tactic(auto, unfolding(words::specs::Word::word_at))]
fn word_inside(file: &[u8], at: usize) -> u16
    requires { at + 2 ≤ length file.now }
    ensures { result ≡ word_at file.now at }
{
    words::word_of(file[at], file[at + 1])
}

// Whether a vector names an entry: its bit, 0 or 1.
#[tactic(auto, unfolding(crate::specs::Vector::bit))]
fn bit(vector: u16, i: usize) -> usize
    requires { i < 16 }
    ensures { (result ≡ bit vector i) × (result < 2) }
{
    ((vector >> i) % 2) as usize
}

// How many words follow a vector: one for each set bit.
fn named(vector: u16) -> usize
    ensures { (result ≡ named vector) × (result ≤ 16) }
{
    u16::count_ones(vector) as usize
}

// Whether a file of this length ends before n bytes from an offset on.
fn lacks(len: usize, at: usize, n: usize) -> bool
    ensures { result ≡ ltb len (at + n) }
{
    len < at || len - at < n
}

// Judges the palette whose vector stands at an offset: where it ends.
fn judge_palette(file: &[u8], at: usize) -> Result<usize, Refusal>
    ensures { result ≡ judge_palette file.now at }
{
    if lacks(file.len(), at, VECTOR_BYTES) {
        return Err(Reason::InputEnds.refuse_at(at));
    }
    let vector = word_inside(file, at);
    if bit(vector, UNUSED_ENTRY) == 1 {
        return Err(Reason::Bit15Set.refuse());
    }
    let bytes = VECTOR_BYTES + named(vector) * WORD_BYTES;
    if lacks(file.len(), at, bytes) {
        return Err(Reason::InputEnds.refuse_at(at));
    }
    Ok(at + bytes)
}

// Judges n palettes, one after the other: where the last one ends.
fn judge_palettes(file: &[u8], at: usize, n: usize) -> Result<usize, Refusal>
    ensures { result ≡ judge_palettes n file.now at }
{
    let mut from = at;
    for _ in 0..n {
        from = judge_palette(file, from)?;
    }
    Ok(from)
}

// Judges all palettes, and that no byte is left behind the last one.
fn judge_map(file: &[u8], at: usize) -> Result<usize, Refusal>
    ensures { result ≡ judge_map file.now at }
{
    let end = judge_palettes(file, at, PALETTE_COUNT)?;
    if end < file.len() {
        return Err(Reason::SizeMismatch.refuse());
    }
    Ok(end)
}

// ---- palettes written

// The word of an entry: that of the file where the entry is named, and else the one before.
fn chosen(set: usize, word: u16, before: u16) -> u16
    ensures { result ≡ cond (eqb set 1) word before }
{
    if set == 1 { word } else { before }
}

// Writes the words of a palette over the front of an output.
fn put_words(palette: &[u16; 16], out: &mut [u16])
    requires in_bounds { 16 ≤ length out.old }
    ensures { out.new ≡ over palette.now out.old }
{
    out[..ENTRIES].copy_from_slice(palette);
}

// Writes the entries of the whole palette whose vector stands at an offset over the palette before it, and over the
// front of an output: where it ends. For each entry, named or not, the last word that is named so far is read: it is
// always inside the palette, so that no entry needs a branch.
fn put_entries(file: &[u8], at: usize, last: &mut [u16; 16], out: &mut [u16]) -> usize
    requires at_in_bounds { palette_end file.now at ≤ length file.now }
    requires in_bounds { 16 ≤ length out.old }
    ensures { PaletteWritten file.now at last.old out.old result last.new
        out.new }
{
    let vector = word_inside(file, at);
    let mut from = at;
    for i in 0..ENTRIES {
        let set = bit(vector, i);
        from += set * WORD_BYTES;
        let word = chosen(set, word_inside(file, from), last[i]);
        last[i] = word;
        out[i] = word;
    }
    from + WORD_BYTES
}

// Writes the whole palette whose vector stands at an offset over the palette before it, and over the front of an
// output: where it ends. One that names no entry is the palette before.
fn put_palette(file: &[u8], at: usize, last: &mut [u16; 16], out: &mut [u16]) -> usize
    requires at_in_bounds { palette_end file.now at ≤ length file.now }
    requires in_bounds { 16 ≤ length out.old }
    ensures { PaletteWritten file.now at last.old out.old result last.new
        out.new }
{
    if word_inside(file, at) == 0 {
        put_words(last, out);
        return at + VECTOR_BYTES;
    }
    put_entries(file, at, last, out)
}

// Writes n palettes that are judged, one after the other, over the front of an output.
fn put_palettes(file: &[u8], at: usize, n: usize, out: &mut [u16])
    requires by_index { (end : ℕ) × (judge_palettes n file.now at ≡ Ok end) }
    requires n_in_bounds { n * 16 ≤ length out.old }
    ensures { out.new ≡ over (palettes n file.now at no_palette) out.old }
{
    let mut last = [0u16; 16];
    let mut from = at;
    for k in 0..n {
        from = put_palette(file, from, &mut last, &mut out[k * ENTRIES..]);
    }
}

// ---- the whole map

// Reads the colour map from an offset of a file to its end, into the first 9,552 words of an area. All is judged before
// the first word is written.
pub fn read_map(file: &[u8], at: usize, area: &mut [u16]) -> Result<(), Refusal>
    ensures answer { result ≡ void (read_map file.now at (length area.old)) }
    ensures area { area.new
        ≡ map_area (read_map file.now at (length area.old)) area.old }
{
    if area.len() < PALETTE_WORDS {
        return Err(Reason::AreaTooShort.refuse());
    }
    judge_map(file, at)?;
    put_palettes(file, at, PALETTE_COUNT, area);
    Ok(())
}
