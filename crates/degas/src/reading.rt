// An opened DEGAS file read: its parts judged, and its screen copied or unpacked.
ghost use Rattle.std.specs.Prelude.{◌≡◌, ◌+◌, ◌≤◌, length, Ok, IfOk};
ghost use Rattle.resolution.specs.Shapes.{screen_bytes};
ghost use Rattle.outcome.specs.Outcome.{map};
ghost use Rattle.picture.specs.Reading.{raw_reading, picture_read, read_area};
ghost use Rattle.bodies.specs.Reading.{body_area};
ghost use Rattle.bodies.specs.Unpacking.{body_unpacked};
ghost use Rattle.degas.specs.Layout.{header_length, plain_length};
ghost use Rattle.degas.specs.Reading.{plain_picture, elite_picture, read_raw, packed_body, read_packed, read_opened};

use super::{
    ELITE_LENGTH, HEADER_LENGTH, Header, PACKED_MOST, PALETTE_START, PLAIN_LENGTH, TAIL_LENGTH,
};
use outcome::{Reason, Refusal};
use packbits::Packed;
use picture::{Picture, PictureRead};
use resolution::{Resolution, SCREEN_BYTES};

// The picture of a plain file.
fn plain_picture(file: &[u8], r: Resolution) -> Picture
    ensures { result ≡ plain_picture file.now r }
{
    picture::without_tail(r.number(), picture::parts::palette_at(file, PALETTE_START))
}

// The picture of a file with the tail at an offset.
#[inline(always)]
fn elite_picture(file: &[u8], r: Resolution, at: u32) -> Picture
    ensures { result ≡ elite_picture file.now r at }
{
    let palette = picture::parts::palette_at(file, PALETTE_START);
    picture::with_tail(r.number(), palette, picture::parts::tail_at(file, at))
}

// Copies the raw screen of a file into the area, and gives the picture.
fn copy_screen(file: &[u8], picture: Picture, area: &mut [u8]) -> PictureRead
    requires plain_length_in_bounds { plain_length ≤ length file.now }
    requires screen_bytes_in_bounds { screen_bytes ≤ length area.old }
    ensures read { result ≡ picture_read (raw_reading picture file.now header_length) }
    ensures area { area.new
        ≡ read_area (Ok (raw_reading picture file.now header_length)) area.old }
{
    byte_copy::copy(&file[HEADER_LENGTH..PLAIN_LENGTH], area);
    PictureRead {
        picture,
        body: 0,
        records: 0,
    }
}

// A raw file: its length says whether it has a tail.
#[tactic(auto, unfolding(crate::specs::Reading::read_raw))]
fn read_raw(file: &[u8], r: Resolution, area: &mut [u8]) -> Result<PictureRead, Refusal>
    requires { screen_bytes ≤ length area.old }
    ensures answer { result ≡ map picture_read (read_raw file.now r) }
    ensures area { area.new ≡ read_area (read_raw file.now r) area.old }
{
    if file.len() == PLAIN_LENGTH {
        return Ok(copy_screen(file, plain_picture(file, r), area));
    }
    if file.len() == ELITE_LENGTH {
        return Ok(copy_screen(file, elite_picture(file, r, PLAIN_LENGTH as u32), area));
    }
    Err(Reason::WrongLength.refuse())
}

// The body of a packed file, and then exactly 32 bytes. The rows are unpacked into a buffer of the reader's own.
#[inline(never)]
fn read_by_buffer(file: &[u8], r: Resolution, area: &mut [u8]) -> Result<Packed, Refusal>
    requires { screen_bytes ≤ length area.old }
    ensures answer { result ≡ map body_unpacked (packed_body file.now r) }
    ensures area { area.new ≡ body_area (packed_body file.now r) area.old }
    ensures bytes { IfOk result (λ body. header_length + body.bytes ≤ length file.now) }
{
    let mut buffer = [0u8; SCREEN_BYTES];
    bodies::read_body(
        file,
        HEADER_LENGTH,
        TAIL_LENGTH,
        r.raster(),
        &mut buffer,
        area,
    )
}

// A packed file. read_by_buffer is not inlined: its buffer stays out of this stack frame.
#[inline(never)]
#[tactic(auto, unfolding(crate::specs::Reading::read_packed))]
fn read_packed(file: &[u8], r: Resolution, area: &mut [u8]) -> Result<PictureRead, Refusal>
    requires { screen_bytes ≤ length area.old }
    ensures answer { result ≡ map picture_read (read_packed file.now r) }
    ensures area { area.new ≡ read_area (read_packed file.now r) area.old }
{
    if PACKED_MOST < file.len() {
        return Err(Reason::WrongLength.refuse());
    }
    let body = read_by_buffer(file, r, &mut area[..SCREEN_BYTES])?;
    let end = HEADER_LENGTH + body.bytes;
    Ok(PictureRead {
        picture: elite_picture(file, r, end as u32),
        body: body.bytes,
        records: body.records,
    })
}

// An opened file, raw or packed.
pub(crate) fn read_opened(file: &[u8], h: Header, area: &mut [u8]) -> Result<PictureRead, Refusal>
    requires { screen_bytes ≤ length area.old }
    ensures answer { result ≡ map picture_read (read_opened file.now h) }
    ensures area { area.new ≡ read_area (read_opened file.now h) area.old }
{
    if h.packed {
        return read_packed(file, h.resolution, area);
    }
    read_raw(file, h.resolution, area)
}
