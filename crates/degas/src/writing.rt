// A DEGAS file written over the front of a lent output, part by part.
ghost use Rattle.std.specs.Prelude.{◌≡◌, ◌≤◌, ◌<◌, length, take, Some, IfOk};
ghost use Rattle.lists.specs.Written.{Written};
ghost use Rattle.outcome.specs.Outcome.{map};
ghost use Rattle.resolution.specs.Choice.{chosen};
ghost use Rattle.resolution.specs.Shapes.{screen_bytes};
ghost use Rattle.picture.specs.Tables.{tail_bytes};
ghost use Rattle.picture.specs.Writing.{file_bytes, file_written, write_output};
ghost use Rattle.bodies.specs.Packing.{body_packed, packed_output};
ghost use Rattle.degas.specs.Layout.{header_length, tail_length, body_limit, plain_length};
ghost use Rattle.degas.specs.Layout.{header, plain_file, elite_file};
ghost use Rattle.degas.specs.Writing.{packed_screen, write_packed, write_form};

use super::{BODY_LIMIT, Form, HEADER_LENGTH, PACKED_BIT};
use outcome::Refusal;
use packbits::Packed;
use picture::{FileWritten, Picture, Table};
use resolution::{Resolution, SCREEN_BYTES};

// The first word and the palette. Answers the length, as every function here that puts a part does.
fn put_header(word: u16, picture: Picture, out: &mut [u8]) -> usize
    requires { header_length ≤ length out.old }
    ensures part { Written (header word picture) out.old out.new result }
    ensures size { result ≡ header_length }
{
    let palette = picture.palette;
    let first = picture::parts::word_bytes(word);
    let words = picture::parts::palette_bytes(palette);
    let start = byte_copy::copy(&first, out);
    start + byte_copy::copy(&words, &mut out[start..])
}

// The screen: the first 32,000 bytes of the area.
fn put_screen(screen: &[u8], out: &mut [u8]) -> usize
    requires screen_bytes_in_bounds { screen_bytes ≤ length screen.now }
    requires screen_bytes_in_bounds_2 { screen_bytes ≤ length out.old }
    ensures part { Written (take screen_bytes screen.now) out.old out.new result }
    ensures size { result ≡ screen_bytes }
{
    byte_copy::copy(&screen[..SCREEN_BYTES], out)
}

// The tail's words as given, marked present or not.
fn put_tail(tail: [Table; 4], out: &mut [u8]) -> usize
    requires { tail_length ≤ length out.old }
    ensures part { Written (tail_bytes tail) out.old out.new result }
    ensures size { result ≡ tail_length }
{
    let words = picture::parts::tail_bytes(tail);
    byte_copy::copy(&words, out)
}

// Form 1, plain DEGAS.
fn put_plain(picture: Picture, screen: &[u8], out: &mut [u8]) -> usize
    requires screen_bytes_in_bounds { screen_bytes ≤ length screen.now }
    requires file_bytes_in_bounds { file_bytes ≤ length out.old }
    ensures part { Written (plain_file picture screen.now) out.old out.new result }
    ensures size { result ≡ plain_length }
{
    let start = put_header(picture.resolution, picture, out);
    start + put_screen(screen, &mut out[start..])
}

// Form 2, DEGAS Elite raw.
fn put_elite(picture: Picture, screen: &[u8], out: &mut [u8]) -> usize
    requires screen_bytes_in_bounds { screen_bytes ≤ length screen.now }
    requires file_bytes_in_bounds { file_bytes ≤ length out.old }
    ensures { Written (elite_file picture screen.now) out.old out.new result }
{
    let tail = picture.tail;
    let end = put_plain(picture, screen, out);
    end + put_tail(tail, &mut out[end..])
}

// The least body of the screen, packed behind the place of the header.
fn pack_screen(r: Resolution, screen: &[u8], out: &mut [u8]) -> Result<Packed, Refusal>
    requires screen_bytes_in_bounds { screen_bytes ≤ length screen.now }
    requires file_bytes_in_bounds { file_bytes ≤ length out.old }
    ensures answer { result ≡ map body_packed (packed_screen r screen.now) }
    ensures out { out.new ≡ packed_output (packed_screen r screen.now) header_length out.old }
    ensures bytes { IfOk result (λ body. body.bytes < body_limit) }
{
    bodies::pack_body(screen, r.raster(), BODY_LIMIT, HEADER_LENGTH, out)
}

// Form 3, DEGAS Elite packed. The body is decided and written first: where there is none below the limit nothing has
// changed.
fn write_packed(
    r: Resolution,
    picture: Picture,
    screen: &[u8],
    out: &mut [u8],
) -> Result<FileWritten, Refusal>
    requires resolution_value { chosen picture.resolution ≡ Some r }
    requires screen_bytes_in_bounds { screen_bytes ≤ length screen.now }
    requires file_bytes_in_bounds { file_bytes ≤ length out.old }
    ensures answer { result ≡ map file_written (write_packed r picture screen.now) }
    ensures output { out.new
        ≡ write_output (write_packed r picture screen.now) out.old }
{
    let body = pack_screen(r, screen, out)?;
    let end = put_header(PACKED_BIT + picture.resolution, picture, out) + body.bytes;
    let length = end + put_tail(picture.tail, &mut out[end..]);
    Ok(FileWritten {
        length,
        body: body.bytes,
        records: body.records,
    })
}

// A form at a known resolution.
pub(crate) fn write_form(
    form: Form,
    r: Resolution,
    picture: Picture,
    screen: &[u8],
    out: &mut [u8],
) -> Result<FileWritten, Refusal>
    requires resolution_value { chosen picture.resolution ≡ Some r }
    requires screen_bytes_in_bounds { screen_bytes ≤ length screen.now }
    requires file_bytes_in_bounds { file_bytes ≤ length out.old }
    ensures answer { result ≡ map file_written (write_form form r picture screen.now) }
    ensures output { out.new
        ≡ write_output (write_form form r picture screen.now) out.old }
{
    let length = match form {
        Form::Plain => put_plain(picture, screen, out),
        Form::Elite => put_elite(picture, screen, out),
        Form::Packed => return write_packed(r, picture, screen, out),
    };
    Ok(FileWritten {
        length,
        body: 0,
        records: 0,
    })
}
