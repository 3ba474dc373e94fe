// DEGAS files, plain, Elite raw and Elite packed: opened, read and written. Definitions: specs/.
#![tactic(auto)]

ghost use Rattle.std.specs.Prelude.{◌≡◌, length};
ghost use Rattle.outcome.specs.Outcome.{map};
ghost use Rattle.picture.specs.Reading.{picture_read, read_area};
ghost use Rattle.picture.specs.Writing.{file_written, write_output};
ghost use Rattle.degas.specs.Opening.{opening};
ghost use Rattle.degas.specs.Reading.{read_degas};
ghost use Rattle.degas.specs.Writing.{write_degas};

use outcome::{Reason, Refusal};
use picture::{FileWritten, Picture, PictureRead};
use resolution::{Resolution, SCREEN_BYTES};

mod reading;
mod writing;

// Where the palette stands.
pub const PALETTE_START: u32 = 2;

// The first word and the palette; the body follows.
pub const HEADER_LENGTH: usize = 34;

// The tail's 16 words.
pub const TAIL_LENGTH: usize = 32;

// A packed body is below this.
pub const BODY_LIMIT: usize = 32000;

// A plain file.
pub const PLAIN_LENGTH: usize = 32034;

// An Elite raw file.
pub const ELITE_LENGTH: usize = 32066;

// The longest Elite packed file.
pub const PACKED_MOST: usize = 32065;

// Bit 15 of the first word.
pub const PACKED_BIT: u16 = 0x8000;

// What the first word says.
#[derive(Clone, Copy, Debug, PartialEq, Eq)]
pub struct Header {
    pub resolution: Resolution,
    pub packed: bool,
}

// The form of a file to write, and its number.
#[derive(Clone, Copy, Debug, PartialEq, Eq)]
pub enum Form {
    Plain = 1,
    Elite = 2,
    Packed = 3,
}

// Judges a file's first word: bits 0 and 1 are the resolution, and bit 15 says packed.
#[tactic(auto, unfolding(crate::specs::Opening::opening))]
pub fn open_file(file: &[u8]) -> Result<Header, Refusal>
    ensures { result ≡ opening file.now }
{
    if file.len() < HEADER_LENGTH {
        return Err(Reason::WrongLength.refuse());
    }
    let word = words::word_at(file, 0);
    let resolution = Resolution::try_from(word % 4)?;
    let packed = (word >> 15) % 2 == 1;
    Ok(Header { resolution, packed })
}

// Reads a file into the first 32,000 bytes of an area. All is judged before the first byte is written.
#[inline(never)]
#[tactic(auto, unfolding(crate::specs::Reading::read_degas))]
pub fn read(file: &[u8], area: &mut [u8]) -> Result<PictureRead, Refusal>
    ensures answer { result ≡ map picture_read (read_degas file.now (length area.old)) }
    ensures area { area.new
        ≡ read_area (read_degas file.now (length area.old)) area.old }
{
    if area.len() < SCREEN_BYTES {
        return Err(Reason::AreaTooShort.refuse());
    }
    let header = open_file(file)?;
    reading::read_opened(file, header, area)
}

// Writes a picture and its screen as a file of a form, over the front of the output.
#[tactic(auto, unfolding(crate::specs::Writing::write_degas))]
pub fn write(
    form: Form,
    picture: Picture,
    screen: &[u8],
    out: &mut [u8],
) -> Result<FileWritten, Refusal>
    ensures answer { result
        ≡ map file_written (write_degas form picture screen.now (length out.old)) }
    ensures output { out.new
        ≡ write_output (write_degas form picture screen.now (length out.old)) out.old }
{
    let r = picture::judge_writing(screen.len(), out.len(), picture.resolution)?;
    writing::write_form(form, r, picture, screen, out)
}
