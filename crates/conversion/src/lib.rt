// DEGAS files converted: plain to Elite, and Elite to plain (document 02, ticket 7). Definitions: specs/.
#![tactic(auto)]

ghost use Rattle.std.specs.Prelude.{◌≡◌, ◌≤◌, length};
ghost use Rattle.outcome.specs.Outcome.{map};
ghost use Rattle.picture.specs.Writing.{file_bytes, file_written, write_output};
ghost use Rattle.conversion.specs.Converting.{zero_tail, write_elite, plain_to_elite, elite_to_plain, convert};

use degas::Form;
use outcome::{Reason, Refusal};
use picture::{FILE_BYTES, FileWritten, Picture};
use resolution::SCREEN_BYTES;

// A plain file to Elite with a zero tail, packed where a body below 32,000 bytes exists and else raw; or an Elite file
// with a zero tail, raw or packed, to plain.
#[derive(Clone, Copy, Debug, PartialEq, Eq)]
pub enum Conversion {
    ToElite,
    ToPlain,
}

// Whether a tail is present and all zero.
fn zero_tail(picture: Picture) -> bool
    ensures { result ≡ zero_tail picture }
{
    picture.tail_present
        && picture::parts::tail_bytes(picture.tail)
            .iter()
            .all(|&byte| byte == 0)
}

// Writes Elite packed, or Elite raw where no body below 32,000 bytes exists: the refused writing changed nothing.
#[tactic(auto, unfolding(crate::specs::Converting::write_elite))]
fn write_elite(picture: Picture, screen: &[u8], out: &mut [u8]) -> Result<FileWritten, Refusal>
    ensures answer { result ≡ map file_written (write_elite picture screen.now (length out.old)) }
    ensures output { out.new
        ≡ write_output (write_elite picture screen.now (length out.old)) out.old }
{
    match degas::write(Form::Packed, picture, screen, out) {
        Err(why) if why.number == Reason::NoPackedBody.number() => {
            degas::write(Form::Elite, picture, screen, out)
        }
        packed => packed,
    }
}

// Writes what a file with this first word gave as Elite.
#[tactic(auto, unfolding(crate::specs::Converting::plain_to_elite))]
fn plain_to_elite(
    word: u16,
    picture: Picture,
    screen: &[u8],
    out: &mut [u8],
) -> Result<FileWritten, Refusal>
    ensures answer { result
        ≡ map file_written (plain_to_elite word picture screen.now (length out.old)) }
    ensures output { out.new
        ≡ write_output (plain_to_elite word picture screen.now (length out.old))
        out.old }
{
    if picture.tail_present {
        return Err(Reason::UnknownKind.refuse());
    }
    if (word >> 2) % 8192 != 0 {
        return Err(Reason::IgnoredBitsSet.refuse());
    }
    write_elite(picture, screen, out)
}

// Writes what a file gave as plain DEGAS.
#[tactic(auto, unfolding(crate::specs::Converting::elite_to_plain))]
fn elite_to_plain(picture: Picture, screen: &[u8], out: &mut [u8]) -> Result<FileWritten, Refusal>
    ensures answer { result
        ≡ map file_written (elite_to_plain picture screen.now (length out.old)) }
    ensures output { out.new
        ≡ write_output (elite_to_plain picture screen.now (length out.old)) out.old }
{
    if !zero_tail(picture) {
        return Err(Reason::NoZeroTail.refuse());
    }
    degas::write(Form::Plain, picture, screen, out)
}

// Converts a file by a screen of its own, over the front of the output. All is judged before the first byte is written.
#[inline(never)]
fn convert_by_screen(to: Conversion, file: &[u8], out: &mut [u8]) -> Result<FileWritten, Refusal>
    requires { file_bytes ≤ length out.old }
    ensures answer { result ≡ map file_written (convert to file.now (length out.old)) }
    ensures output { out.new
        ≡ write_output (convert to file.now (length out.old)) out.old }
{
    let mut screen = [0u8; SCREEN_BYTES];
    let picture = degas::read(file, &mut screen)?.picture;
    match to {
        Conversion::ToElite => plain_to_elite(words::word_at(file, 0), picture, &screen, out),
        Conversion::ToPlain => elite_to_plain(picture, &screen, out),
    }
}

// Converts a file, over the front of the output. convert_by_screen is not inlined: its screen stays out of this stack
// frame.
#[tactic(auto, unfolding(crate::specs::Converting::convert))]
pub fn convert(to: Conversion, file: &[u8], out: &mut [u8]) -> Result<FileWritten, Refusal>
    ensures answer { result ≡ map file_written (convert to file.now (length out.old)) }
    ensures output { out.new
        ≡ write_output (convert to file.now (length out.old)) out.old }
{
    if out.len() < FILE_BYTES {
        return Err(Reason::AreaTooShort.refuse());
    }
    convert_by_screen(to, file, &mut out[..FILE_BYTES])
}
