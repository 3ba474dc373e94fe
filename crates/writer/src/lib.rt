// Writes a picture as a file of any form into a lent output: the form chooses the format. Definitions: specs/.
#![tactic(auto)]

ghost use Rattle.std.specs.Prelude.{◌≡◌, length};
ghost use Rattle.outcome.specs.Outcome.{map};
ghost use Rattle.picture.specs.Writing.{file_written, write_output};
ghost use Rattle.writer.specs.Writing.{form_of, number_of_form, write_file};

use outcome::{Reason, Refusal};
use picture::{FILE_BYTES, FileWritten, Picture};
use resolution::SCREEN_BYTES;

// The form of a file to write: one of DEGAS, or NEOchrome.
#[derive(Clone, Copy, Debug, PartialEq, Eq)]
pub enum Form {
    Degas(degas::Form),
    Neochrome,
}

impl Form {
    // The number that names it.
    // By match: one variant holds a form of DEGAS, so that no cast gives the number.
    pub fn number(self) -> u8
        ensures { result ≡ number_of_form self }
    {
        match self {
            Form::Degas(form) => form as u8,
            Form::Neochrome => 4,
        }
    }
}

// Any other number is refused.
impl TryFrom<u8> for Form {
    type Error = Refusal;

    ghost try_from_gives = { λ number form. form ≡ form_of number };

    fn try_from(number: u8) -> Result<Self, Refusal> {
        match number {
            1 => Ok(Form::Degas(degas::Form::Plain)),
            2 => Ok(Form::Degas(degas::Form::Elite)),
            3 => Ok(Form::Degas(degas::Form::Packed)),
            4 => Ok(Form::Neochrome),
            _ => Err(Reason::UnknownKind.refuse()),
        }
    }
}

// Writes a picture and its screen as a file of a form, over the front of the output.
pub fn write(
    form: u8,
    picture: Picture,
    screen: &[u8],
    out: &mut [u8],
) -> Result<FileWritten, Refusal>
    ensures answer { result ≡ map file_written (write_file form picture screen.now (length out.old)) }
    ensures output { out.new
        ≡ write_output (write_file form picture screen.now (length out.old)) out.old }
{
    if screen.len() < SCREEN_BYTES || out.len() < FILE_BYTES {
        return Err(Reason::AreaTooShort.refuse());
    }
    match Form::try_from(form)? {
        Form::Degas(form) => degas::write(form, picture, screen, out),
        Form::Neochrome => neochrome::write(picture, screen, out),
    }
}
