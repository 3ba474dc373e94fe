// The packed body of a raster: read from a file, and the least one below a limit packed. Definitions: specs/.
#![tactic(auto)]

ghost use Rattle.std.specs.Prelude.{◌≡◌, ◌+◌, ◌-◌, ◌≤◌, ◌<◌, length, ltb, leb, eqb, Ok};
ghost use Rattle.lists.specs.Over.{over};
ghost use Rattle.outcome.specs.Outcome.{map, later};
ghost use Rattle.packbits.specs.Row.{row_packed};
ghost use Rattle.unpack.specs.Rows.{RowsFit};
ghost use Rattle.pack.specs.Least.{least};
ghost use Rattle.raster.specs.Shape.{row_bytes, rows, bytes};
ghost use Rattle.raster.specs.PlaneRows.{plane_row};
ghost use Rattle.bodies.specs.Body.{judge_raster, given_body_answer, RowRoom};
ghost use Rattle.bodies.specs.Packing.{packed_row, least_body, least_packed, below_limit, pack_body};
ghost use Rattle.bodies.specs.Packing.{body_packed, packed_output};
ghost use Rattle.bodies.specs.Reading.{read_into, body_area};
ghost use Rattle.bodies.specs.Unpacking.{unpack_body, body_unpacked, RowsUnpacked};

use outcome::{Reason, Refusal};
use packbits::{MAX_WIDTH, Packed};
use raster::Raster;

// The answer in C of a body packed or unpacked: its packed bytes and its records; both 0 of a refusal.
// C's struct: the exported function gives it back.
#[repr(C)]
#[derive(Clone, Copy)]
pub struct BodyAnswer {
    pub refusal: Refusal,
    pub body: usize,
    pub records: usize,
}

impl From<Result<Packed, Refusal>> for BodyAnswer {
    ghost from_gives = { λ given answer. answer ≡ given_body_answer given };

    fn from(given: Result<Packed, Refusal>) -> BodyAnswer {
        match given {
            Ok(packed) => BodyAnswer {
                refusal: outcome::none(),
                body: packed.bytes,
                records: packed.records,
            },
            Err(refusal) => BodyAnswer {
                refusal,
                body: 0,
                records: 0,
            },
        }
    }
}

// Judges a raster with an area of room bytes.
fn judge_raster(r: Raster, room: usize) -> Result<(), Refusal>
    ensures { result ≡ judge_raster r room (Ok tt) }
{
    if packbits::width_out_of_range(r.row_bytes()) {
        return Err(Reason::OutOfRange.refuse());
    }
    if room < r.bytes() {
        return Err(Reason::AreaTooShort.refuse());
    }
    Ok(())
}

// Unpacks the plane rows of the body that starts at an offset of a file, each behind the one before it, to the front of
// a buffer. What stands behind the rows may change too.
fn unpack_body(file: &[u8], at: usize, r: Raster, buffer: &mut [u8]) -> Result<Packed, Refusal>
    requires { RowsFit (rows r) (row_bytes r) (length buffer.old) }
    ensures answer { result ≡ map body_unpacked (unpack_body file.now at r) }
    ensures buffer { RowsUnpacked file.now at r buffer.new }
{
    unpack::unpack_rows(file, at, r.rows(), r.row_bytes(), buffer)
}

// Whether a file of len bytes has exactly `after` bytes behind the offset `end`.
fn ends_after(len: usize, end: usize, after: usize) -> bool
    ensures { result ≡ eqb len (end + after) }
{
    len.checked_sub(end) == Some(after)
}

// Reads the body that stands in a file after a header of `at` bytes and before exactly `after` bytes into the front of
// an area. The rows are unpacked into a buffer that holds the raster; all is judged before the area changes.
pub fn read_body(
    file: &[u8],
    at: usize,
    after: usize,
    r: Raster,
    buffer: &mut [u8],
    area: &mut [u8],
) -> Result<Packed, Refusal>
    ensures answer { result
        ≡ map body_unpacked (read_into file.now at after r (length buffer.old)
        (length area.old)) }
    ensures area { area.new
        ≡ body_area (read_into file.now at after r (length buffer.old) (length area.old))
        area.old }
{
    judge_raster(r, buffer.len())?;
    if area.len() < r.bytes() {
        return Err(Reason::AreaTooShort.refuse());
    }
    let unpacked = unpack_body(file, at, r, buffer)?;
    let end = at + unpacked.bytes;
    if !ends_after(file.len(), end, after) {
        return Err(Reason::WrongTail.refuse_at(end));
    }
    raster::put_rows(area, r, buffer);
    Ok(unpacked)
}

// The length of plane row n's least body; the row is taken into a buffer of its width.
fn least_row_len(area: &[u8], r: Raster, n: usize, row: &mut [u8]) -> usize
    requires { RowRoom r area.now row.old × (n < rows r) }
    ensures { result ≡ length (least (plane_row area.now r n)) }
{
    raster::take_row(area, r, n, row);
    pack::least_len(row)
}

// Plane row n's least body to the front of out.
fn pack_plane_row(
    area: &[u8],
    r: Raster,
    n: usize,
    row: &mut [u8],
    out: &mut [u8],
) -> Result<Packed, Refusal>
    requires row_room { RowRoom r area.now row.old × (n < rows r) }
    requires n_in_bounds { length (least (plane_row area.now r n)) ≤ length out.old }
    ensures answer { result ≡ map row_packed (packed_row area.now r n) }
    ensures out { out.new ≡ over (least (plane_row area.now r n)) out.old }
{
    raster::take_row(area, r, n, row);
    pack::pack_into(row, out)
}

// Whether the least body is not below a limit. Each row's saving is taken off the most that the body can have, until
// that is below the limit.
fn body_too_long(area: &[u8], r: Raster, limit: usize, row: &mut [u8]) -> bool
    requires { RowRoom r area.now row.old }
    ensures { result ≡ leb limit (length (least_body r area.now)) }
{
    let rows = r.rows();
    let longest = r.row_bytes() + 1;
    let mut most = rows * longest;
    for n in 0..rows {
        most -= longest - least_row_len(area, r, n, row);
        if most < limit {
            return false;
        }
    }
    limit <= most
}

// The whole body to the front of out. Each row's body goes to the part of out that starts where the one before it
// ended.
fn put_body(area: &[u8], r: Raster, row: &mut [u8], out: &mut [u8]) -> Result<Packed, Refusal>
    requires row_room { RowRoom r area.now row.old }
    requires area_in_bounds { length (least_body r area.now) ≤ length out.old }
    ensures answer { result ≡ Ok (least_packed r area.now) }
    ensures out { out.new ≡ over (least_body r area.now) out.old }
{
    let mut end = 0;
    let mut records = 0;
    for n in 0..r.rows() {
        let packed = pack_plane_row(area, r, n, row, &mut out[end..]).unwrap();
        end += packed.bytes;
        records += packed.records;
    }
    Ok(Packed {
        bytes: end,
        records,
    })
}

// The least body to the front of out, where it is below a limit.
fn pack_below(
    area: &[u8],
    r: Raster,
    limit: usize,
    row: &mut [u8],
    out: &mut [u8],
) -> Result<Packed, Refusal>
    requires row_room { RowRoom r area.now row.old }
    requires limit_in_bounds { limit - 1 ≤ length out.old }
    ensures answer { result ≡ map body_packed (below_limit r area.now limit) }
    ensures out { out.new
        ≡ later (below_limit r area.now limit) (λ b. over b.bytes out.old)
        out.old }
{
    if body_too_long(area, r, limit, row) {
        return Err(Reason::NoPackedBody.refuse());
    }
    put_body(area, r, row, out)
}

// Whether an output of room bytes is too short, from an offset on, for the longest body below a limit.
fn out_too_short(room: usize, at: usize, limit: usize) -> bool
    ensures { result ≡ ltb room (at + (limit - 1)) }
{
    room < at || room - at < limit.saturating_sub(1)
}

// Packs an area to its least body below a limit, into out from an offset on, where out must have room for every body
// below the limit. All is judged and decided before the first byte is written.
pub fn pack_body(
    area: &[u8],
    r: Raster,
    limit: usize,
    at: usize,
    out: &mut [u8],
) -> Result<Packed, Refusal>
    ensures answer { result ≡ map body_packed (pack_body r area.now limit at (length out.old)) }
    ensures out { out.new
        ≡ packed_output (pack_body r area.now limit at (length out.old)) at out.old }
{
    judge_raster(r, area.len())?;
    if out_too_short(out.len(), at, limit) {
        return Err(Reason::AreaTooShort.refuse());
    }
    let width = r.row_bytes();
    let mut row = [0u8; MAX_WIDTH];
    pack_below(area, r, limit, &mut row[..width], &mut out[at..])
}
