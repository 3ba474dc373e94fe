// Spectrum 512 pictures, SPU and SPC, read (document 02, ticket 5; sources 000 and 001). Definitions: specs/.
#![tactic(auto)]

ghost use Rattle.std.specs.Prelude.{◌≡◌, ◌+◌, ◌≤◌, ◌<◌, length, Ok};
ghost use Rattle.lists.specs.Over.{over};
ghost use Rattle.outcome.specs.Outcome.{void};
ghost use Rattle.resolution.specs.Shapes.{screen_bytes};
ghost use Rattle.spectrum.specs.Layout.{long_at, colour_start};
ghost use Rattle.spectrum.specs.Screen.{plane_bytes, spc_screen};
ghost use Rattle.spectrum.specs.Reading.{chosen_kind, read_spu, unpacked_data, read_maps, read_spc, read_spectrum};
ghost use Rattle.spectrum.specs.Reading.{screen_area, palette_area, AreasFit, Reads};

use outcome::{Reason, Refusal};
use raster::Raster;
use resolution::SCREEN_BYTES;
use spectrum_colour_map::PALETTE_WORDS;

// The kinds of files that are read, by their numbers.
#[derive(Clone, Copy, Debug, PartialEq, Eq)]
pub enum Kind {
    Spu = 4,
    Spc = 5,
}

// 4 SPU, 5 SPC; any other number is refused.
impl TryFrom<u8> for Kind {
    type Error = Refusal;

    ghost try_from_gives = { λ number chosen. chosen ≡ chosen_kind number };

    fn try_from(number: u8) -> Result<Self, Refusal> {
        match number {
            4 => Ok(Kind::Spu),
            5 => Ok(Kind::Spc),
            _ => Err(Reason::UnknownKind.refuse()),
        }
    }
}

// The bytes of an SPU file: the screen, and behind it the palette words.
pub const SPU_BYTES: usize = 51104;

// The bytes of an SPC file's header.
const HEADER_BYTES: usize = 12;

// Where its words and lengths stand.
const FLAG_START: usize = 0;

const RESERVED_START: usize = 2;

const DATA_LENGTH_START: u8 = 4;

const COLOUR_LENGTH_START: u8 = 8;

// The flag word, "SP".
const SPC_FLAG: u16 = 0x5350;

// The bytes that a data map makes: four planes of the scan lines 1 to 199.
const PLANE_BYTES: usize = 31840;

// So many bytes may be left of a data map.
const MOST_LEFT: usize = 1;

// The shape of these lines, and the bytes of line 0, which stands before them.
const SHOWN_LINES: u16 = 199;

const GROUPS: u8 = 20;

const PLANES: u8 = 4;

const LINE_BYTES: usize = 160;

// ---- SPU

// Reads an SPU file: the screen and the palettes as they stand.
fn read_spu(file: &[u8], screen: &mut [u8], palettes: &mut [u16]) -> Result<(), Refusal>
    requires { AreasFit screen.old palettes.old }
    ensures { Reads (read_spu file.now) screen.old palettes.old result screen.new palettes.new }
{
    if file.len() != SPU_BYTES {
        return Err(Reason::WrongLength.refuse());
    }
    copies::put_part(file, 0, SCREEN_BYTES, screen);
    words::get_words(&file[SCREEN_BYTES..], palettes);
    Ok(())
}

// ---- SPC

// The 32-bit number at an offset, its high word first.
#[tactic(auto, unfolding(crate::specs::Layout::long_at))]
fn long_at(file: &[u8], at: u8) -> usize
    ensures { (result ≡ long_at file.now at) × (result < 4294967296) }
{
    let high = words::word_at(file, at as usize);
    let low = words::word_at(file, at as usize + 2);
    high as usize * 65536 + low as usize
}

// Writes the screen of a data map's bytes: line 0 is zeros.
fn put_screen(planes: &[u8], screen: &mut [u8])
    requires { (plane_bytes ≤ length planes.now) × (screen_bytes ≤ length screen.old) }
    ensures { screen.new ≡ over (spc_screen planes.now) screen.old }
{
    copies::put_run(0, LINE_BYTES, screen);
    let shape = Raster {
        lines: SHOWN_LINES,
        groups: GROUPS,
        planes: PLANES,
    };
    planar::put_planes(&mut screen[LINE_BYTES..], shape, planes);
}

// Judges what is left of the data map, whose records end at an offset, and the colour map, and then writes both.
fn put_maps(
    file: &[u8],
    end: usize,
    last: usize,
    planes: &[u8],
    screen: &mut [u8],
    palettes: &mut [u16],
) -> Result<(), Refusal>
    requires end_value { (end ≡ colour_start file.now) × ((unpacked_data file.now).ends ≡ Ok last) }
    requires planes_value { (planes.now ≡ (unpacked_data file.now).made) × (plane_bytes ≤ length planes.now) }
    requires areas { AreasFit screen.old palettes.old }
    ensures { Reads (read_maps file.now) screen.old palettes.old result screen.new palettes.new }
{
    if MOST_LEFT < end.saturating_sub(last) {
        return Err(Reason::SizeMismatch.refuse());
    }
    spectrum_colour_map::read_map(file, end, palettes)?;
    put_screen(planes, screen);
    Ok(())
}

// Reads the two maps, where the data map ends at an offset, by way of a buffer. Both are judged before the first byte
// or word of an area is written.
#[inline(never)]
fn read_by_buffer(
    file: &[u8],
    end: usize,
    screen: &mut [u8],
    palettes: &mut [u16],
) -> Result<(), Refusal>
    requires end_value { (end ≡ colour_start file.now) × (end ≤ length file.now) }
    requires areas { AreasFit screen.old palettes.old }
    ensures { Reads (read_maps file.now) screen.old palettes.old result screen.new palettes.new }
{
    let mut planes = [0u8; PLANE_BYTES];
    let last = spectrum_data_map::unpack_map(&file[..end], HEADER_BYTES, &mut planes)?;
    put_maps(file, end, last, &planes, screen, palettes)
}

// The same, with an area cut to the screen.
fn read_maps(
    file: &[u8],
    end: usize,
    screen: &mut [u8],
    palettes: &mut [u16],
) -> Result<(), Refusal>
    requires end_value { (end ≡ colour_start file.now) × (end ≤ length file.now) }
    requires areas { AreasFit screen.old palettes.old }
    ensures { Reads (read_maps file.now) screen.old palettes.old result screen.new palettes.new }
{
    // read_by_buffer is not inlined: its buffer stays out of the caller's stack frame.
    read_by_buffer(file, end, &mut screen[..SCREEN_BYTES], palettes)
}

// Reads an SPC file: lengths and header are judged before the maps.
fn read_spc(file: &[u8], screen: &mut [u8], palettes: &mut [u16]) -> Result<(), Refusal>
    requires { AreasFit screen.old palettes.old }
    ensures { Reads (read_spc file.now) screen.old palettes.old result screen.new palettes.new }
{
    if file.len() < HEADER_BYTES {
        return Err(Reason::WrongLength.refuse());
    }
    let end = HEADER_BYTES + long_at(file, DATA_LENGTH_START);
    if file.len() != end + long_at(file, COLOUR_LENGTH_START) {
        return Err(Reason::WrongLength.refuse());
    }
    if words::word_at(file, FLAG_START) != SPC_FLAG {
        return Err(Reason::WrongHeader.refuse());
    }
    if words::word_at(file, RESERVED_START) != 0 {
        return Err(Reason::WrongHeader.refuse());
    }
    read_maps(file, end, screen, palettes)
}

// ---- the kinds

// Reads a file of kind 4, SPU, or 5, SPC, into the first 32,000 bytes of one area and the first 9,552 words of another.
// All is judged before the first byte or word is written.
pub fn read(kind: u8, file: &[u8], screen: &mut [u8], palettes: &mut [u16]) -> Result<(), Refusal>
    ensures answer { result ≡ void
        (read_spectrum kind file.now (length screen.old) (length palettes.old)) }
    ensures screen { screen.new ≡ screen_area
        (read_spectrum kind file.now (length screen.old) (length palettes.old))
        screen.old }
    ensures palettes { palettes.new ≡ palette_area
        (read_spectrum kind file.now (length screen.old) (length palettes.old))
        palettes.old }
{
    if screen.len() < SCREEN_BYTES || palettes.len() < PALETTE_WORDS {
        return Err(Reason::AreaTooShort.refuse());
    }
    match Kind::try_from(kind)? {
        Kind::Spu => read_spu(file, screen, palettes),
        Kind::Spc => read_spc(file, screen, palettes),
    }
}
