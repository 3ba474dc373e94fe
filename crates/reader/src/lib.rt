// Reads a picture file of any kind into a lent area: the kind chooses the format. Definitions: specs/.
#![tactic(auto)]

ghost use Rattle.std.specs.Prelude.{◌≡◌, length};
ghost use Rattle.outcome.specs.Outcome.{map};
ghost use Rattle.picture.specs.Reading.{picture_read, read_area};
ghost use Rattle.reader.specs.Reading.{kind_of, read_file};

use outcome::{Reason, Refusal};
use picture::PictureRead;
use resolution::SCREEN_BYTES;

// The kind of a file to read, and its number.
#[derive(Clone, Copy, Debug, PartialEq, Eq)]
pub enum Kind {
    Degas = 1,
    Neochrome = 2,
    Tiny = 3,
}

// Any other number is refused.
impl TryFrom<u8> for Kind {
    type Error = Refusal;

    ghost try_from_gives = { λ number kind. kind ≡ kind_of number };

    fn try_from(number: u8) -> Result<Self, Refusal> {
        match number {
            1 => Ok(Kind::Degas),
            2 => Ok(Kind::Neochrome),
            3 => Ok(Kind::Tiny),
            _ => Err(Reason::UnknownKind.refuse()),
        }
    }
}

// Reads a file of a kind into the first 32,000 bytes of an area. All is judged before the first byte is written, the
// area's length before the kind.
pub fn read(kind: u8, file: &[u8], area: &mut [u8]) -> Result<PictureRead, Refusal>
    ensures answer { result ≡ map picture_read (read_file kind file.now (length area.old)) }
    ensures area { area.new
        ≡ read_area (read_file kind file.now (length area.old)) area.old }
{
    if area.len() < SCREEN_BYTES {
        return Err(Reason::AreaTooShort.refuse());
    }
    match Kind::try_from(kind)? {
        Kind::Degas => degas::read(file, area),
        Kind::Neochrome => neochrome::read(file, area),
        Kind::Tiny => tiny::read(file, area),
    }
}
