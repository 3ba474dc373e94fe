// NEOchrome files: opened, read and written. Definitions: specs/.
#![tactic(auto)]

ghost use Rattle.std.specs.Prelude.{◌≡◌, ◌≤◌, length, Ok};
ghost use Rattle.outcome.specs.Outcome.{map};
ghost use Rattle.lists.specs.Written.{Written};
ghost use Rattle.resolution.specs.Shapes.{screen_bytes};
ghost use Rattle.picture.specs.Reading.{picture_read, read_area};
ghost use Rattle.picture.specs.Writing.{file_bytes, file_written, write_output};
ghost use Rattle.neochrome.specs.Layout.{file_length, screen_start, middle, header, neochrome_file};
ghost use Rattle.neochrome.specs.Opening.{opening};
ghost use Rattle.neochrome.specs.Reading.{neochrome_reading, read_neochrome};
ghost use Rattle.neochrome.specs.Writing.{write_neochrome};

use outcome::{Reason, Refusal};
use picture::{FileWritten, Picture, PictureRead};
use resolution::{Resolution, SCREEN_BYTES};

// Where the resolution's word stands; the flag's is before it.
pub const RESOLUTION_START: usize = 2;

// Where the palette stands.
pub const PALETTE_START: u32 = 4;

// Where the screen stands.
pub const SCREEN_START: usize = 128;

// Every file.
pub const FILE_LENGTH: usize = 32128;

// The name, after the palette.
const NAME_LENGTH: usize = 12;

// What stands between the name and the screen.
const REST_LENGTH: usize = 80;

// Judges a file's length, flag and resolution.
#[tactic(auto, unfolding(crate::specs::Opening::opening))]
pub fn open_file(file: &[u8]) -> Result<Resolution, Refusal>
    ensures { result ≡ opening file.now }
{
    if file.len() != FILE_LENGTH {
        return Err(Reason::WrongLength.refuse());
    }
    if words::word_at(file, 0) != 0 {
        return Err(Reason::WrongFlag.refuse());
    }
    Resolution::try_from(words::word_at(file, RESOLUTION_START))
}

// The palette and the screen of an opened file.
fn read_opened(file: &[u8], resolution: Resolution, area: &mut [u8]) -> PictureRead
    requires file_len { length file.now ≡ file_length }
    requires screen_bytes_in_bounds { screen_bytes ≤ length area.old }
    ensures answer { result ≡ picture_read (neochrome_reading file.now resolution) }
    ensures area { area.new
        ≡ read_area (Ok (neochrome_reading file.now resolution)) area.old }
{
    byte_copy::copy(&file[SCREEN_START..], area);
    let palette = picture::parts::palette_at(file, PALETTE_START);
    PictureRead {
        picture: picture::without_tail(resolution.number(), palette),
        body: 0,
        records: 0,
    }
}

// Reads a file into the first 32,000 bytes of an area. All is judged before the first byte is written.
#[inline(never)]
#[tactic(auto, using(crate::proofs::Opening::opened_fits), unfolding(crate::specs::Reading::read_neochrome))]
pub fn read(file: &[u8], area: &mut [u8]) -> Result<PictureRead, Refusal>
    ensures answer { result ≡ map picture_read (read_neochrome file.now (length area.old)) }
    ensures area { area.new
        ≡ read_area (read_neochrome file.now (length area.old)) area.old }
{
    if area.len() < SCREEN_BYTES {
        return Err(Reason::AreaTooShort.refuse());
    }
    let resolution = open_file(file)?;
    Ok(read_opened(file, resolution, area))
}

// What stands between the palette and the screen. Answers the length, as every function here that puts a part does.
fn put_middle(out: &mut [u8]) -> usize
    requires { 92 ≤ length out.old }
    ensures { Written middle out.old out.new result }
{
    let mut name = [b' '; NAME_LENGTH];
    name[8] = b'.';
    let end = byte_copy::copy(&name, out);
    // no animation, no offset; the size, 320 and 200
    let mut rest = [0u8; REST_LENGTH];
    rest[10] = 1;
    rest[11] = 64;
    rest[13] = 200;
    end + byte_copy::copy(&rest, &mut out[end..])
}

// All that stands before the screen.
fn put_header(picture: Picture, out: &mut [u8]) -> usize
    requires { screen_start ≤ length out.old }
    ensures part { Written (header picture) out.old out.new result }
    ensures size { result ≡ screen_start }
{
    let flag = words::word_bytes(0);
    let resolution = words::word_bytes(picture.resolution);
    let words = picture.palette;
    let palette = picture::parts::palette_bytes(words);
    let mut end = byte_copy::copy(&flag, out);
    end += byte_copy::copy(&resolution, &mut out[end..]);
    end += byte_copy::copy(&palette, &mut out[end..]);
    end + put_middle(&mut out[end..])
}

// The whole file.
fn put_file(picture: Picture, screen: &[u8], out: &mut [u8]) -> usize
    requires screen_bytes_in_bounds { screen_bytes ≤ length screen.now }
    requires file_bytes_in_bounds { file_bytes ≤ length out.old }
    ensures { Written (neochrome_file picture screen.now) out.old out.new result }
{
    let start = put_header(picture, out);
    start + byte_copy::copy(&screen[..SCREEN_BYTES], &mut out[start..])
}

// Writes a picture and its screen, over the front of the output. The tail is dropped.
#[tactic(auto, unfolding(crate::specs::Writing::write_neochrome))]
pub fn write(picture: Picture, screen: &[u8], out: &mut [u8]) -> Result<FileWritten, Refusal>
    ensures answer { result ≡ map file_written (write_neochrome picture screen.now (length out.old)) }
    ensures output { out.new
        ≡ write_output (write_neochrome picture screen.now (length out.old)) out.old }
{
    picture::judge_writing(screen.len(), out.len(), picture.resolution)?;
    Ok(FileWritten {
        length: put_file(picture, screen, out),
        body: 0,
        records: 0,
    })
}
