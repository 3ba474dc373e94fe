// MacPaint files: a plate read and written (document 02, ticket 9; source 003). Definitions: specs/.
#![tactic(auto)]

ghost use Rattle.std.specs.Prelude.{◌≡◌, ◌≤◌, ◌<◌, length, Ok, IfOk};
ghost use Rattle.outcome.specs.Outcome.{map};
ghost use Rattle.bodies.specs.Packing.{body_packed, packed_output};
ghost use Rattle.bodies.specs.Reading.{body_area};
ghost use Rattle.bodies.specs.Unpacking.{body_unpacked};
ghost use Rattle.picture.specs.Writing.{file_written, write_output};
ghost use Rattle.macpaint.specs.Layout.{header_length, body_limit, longest_file};
ghost use Rattle.macpaint.specs.Plate.{plate_raster, plate_bytes};
ghost use Rattle.macpaint.specs.Reading.{version_allowed, judge_header, plate_body, read_plate};
ghost use Rattle.macpaint.specs.Writing.{packed_plate, write_plate};

use outcome::{Reason, Refusal};
use packbits::Packed;
use picture::FileWritten;
use raster::Raster;

// The header; the body follows, and nothing after the body.
pub const HEADER_LENGTH: usize = 512;

const AFTER_BODY: usize = 0;

// A body is below this.
pub const BODY_LIMIT: usize = 51200;

// The longest file.
pub const LONGEST_FILE: usize = 51711;

// A plate's rows, the groups of 16 pixels in a row, and a plate's bytes.
pub const PLATE_ROWS: u16 = 720;

pub const PLATE_GROUPS: u8 = 36;

pub const PLATE_BYTES: usize = 51840;

// The versions: the header's patterns are ignored, or valid.
const HEADER_IGNORED: u32 = 0;

const HEADER_VALID: u32 = 2;

// The shape of a plate: one plane.
fn plate_raster() -> Raster
    ensures { result ≡ plate_raster }
{
    Raster {
        lines: PLATE_ROWS,
        groups: PLATE_GROUPS,
        planes: 1,
    }
}

// Whether the version, the file's first long, is one of the two.
fn version_allowed(file: &[u8]) -> bool
    ensures { result ≡ version_allowed file.now }
{
    let high = words::word_at(file, 0);
    let low = words::word_at(file, 2);
    let version = high as u32 * 65536 + low as u32;
    version == HEADER_IGNORED || version == HEADER_VALID
}

// Judges a file's length, then its version.
fn judge_header(file: &[u8]) -> Result<(), Refusal>
    ensures { result ≡ judge_header file.now (Ok tt) }
{
    if file.len() < HEADER_LENGTH || LONGEST_FILE < file.len() {
        return Err(Reason::WrongLength.refuse());
    }
    if !version_allowed(file) {
        return Err(Reason::WrongVersion.refuse());
    }
    Ok(())
}

// Reads the body; no byte may follow it. The rows are unpacked into a buffer of the reader's own.
#[inline(never)]
fn read_by_buffer(file: &[u8], area: &mut [u8]) -> Result<Packed, Refusal>
    requires { plate_bytes ≤ length area.old }
    ensures answer { result ≡ map body_unpacked (plate_body file.now) }
    ensures area { area.new ≡ body_area (plate_body file.now) area.old }
{
    let mut buffer = [0u8; PLATE_BYTES];
    bodies::read_body(
        file,
        HEADER_LENGTH,
        AFTER_BODY,
        plate_raster(),
        &mut buffer,
        area,
    )
}

// Reads a file into the first 51,840 bytes of an area. All is judged before the first byte is written. read_by_buffer is
// not inlined: its buffer stays out of this stack frame.
#[tactic(auto, unfolding(crate::specs::Reading::read_plate))]
pub fn read(file: &[u8], plate: &mut [u8]) -> Result<Packed, Refusal>
    ensures answer { result ≡ map body_unpacked (read_plate file.now (length plate.old)) }
    ensures plate { plate.new
        ≡ body_area (read_plate file.now (length plate.old)) plate.old }
{
    if plate.len() < PLATE_BYTES {
        return Err(Reason::AreaTooShort.refuse());
    }
    judge_header(file)?;
    read_by_buffer(file, &mut plate[..PLATE_BYTES])
}

// The least body of the plate, packed behind the place of the header.
fn pack_plate(plate: &[u8], out: &mut [u8]) -> Result<Packed, Refusal>
    ensures answer { result ≡ map body_packed (packed_plate plate.now (length out.old)) }
    ensures out { out.new ≡ packed_output (packed_plate plate.now (length out.old)) header_length out.old }
    ensures bytes { IfOk result (λ body. body.bytes < body_limit × (longest_file ≤ length out.old)) }
{
    bodies::pack_body(plate, plate_raster(), BODY_LIMIT, HEADER_LENGTH, out)
}

// Writes a plate, the first 51,840 bytes of an area, as a file over the front of the output. The body is decided and
// written first: where it is refused nothing has changed.
pub fn write(plate: &[u8], out: &mut [u8]) -> Result<FileWritten, Refusal>
    ensures answer { result ≡ map file_written (write_plate plate.now (length out.old)) }
    ensures output { out.new
        ≡ write_output (write_plate plate.now (length out.old)) out.old }
{
    let body = pack_plate(plate, out)?;
    out[..HEADER_LENGTH].fill(0);
    Ok(FileWritten {
        length: HEADER_LENGTH + body.bytes,
        body: body.bytes,
        records: body.records,
    })
}
