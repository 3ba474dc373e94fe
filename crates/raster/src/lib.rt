// A raster of plane rows: scan lines of groups of 16 pixels, a group one word for each plane. Definitions: specs/.
#![tactic(auto)]

ghost use Rattle.std.specs.Prelude.{◌≡◌, ◌+◌, ◌*◌, ◌/◌, ◌%◌, ◌<◌, ◌≤◌, true, length};
ghost use Rattle.lists.specs.Over.{over};
ghost use Rattle.raster.specs.Shape.{row_bytes, rows, line_bytes, bytes};
ghost use Rattle.raster.specs.PlaneRows.{row_offset, plane_row, with_row, row_fits, take_row, put_row};
ghost use Rattle.raster.specs.Joined.{put_joined, Interleaved};

pub mod putting;

use putting::Spacing;

// Scan lines, groups of 16 pixels in a scan line, and planes. The types keep every product below 2^34.
#[derive(Clone, Copy)]
pub struct Raster {
    pub lines: u16,
    pub groups: u8,
    pub planes: u8,
}

impl Raster {
    // Bytes of a plane row.
    pub fn row_bytes(self) -> usize
        ensures value { result ≡ row_bytes self }
        ensures size { result ≤ 510 }
    {
        self.groups as usize * 2
    }

    // Plane rows.
    pub fn rows(self) -> usize
        ensures value { result ≡ rows self }
        ensures size { result ≤ 16711425 }
    {
        self.lines as usize * self.planes as usize
    }

    // Bytes of a scan line, all planes.
    pub fn line_bytes(self) -> usize
        ensures value { result ≡ line_bytes self }
        ensures size { result ≤ 130050 }
    {
        self.groups as usize * (self.planes as usize * 2)
    }

    // Bytes of the whole raster.
    pub fn bytes(self) -> usize
        ensures value { result ≡ bytes self }
        ensures size { result ≤ 8522826750 }
    {
        self.lines as usize * self.line_bytes()
    }

    // Whether an area of room bytes holds the raster, n is one of its plane rows, and a buffer of width bytes holds a
    // row.
    #[tactic(auto, unfolding(crate::specs::PlaneRows::row_fits))]
    fn row_fits(self, room: usize, n: usize, width: usize) -> bool
        ensures { result ≡ row_fits room self n width }
    {
        self.bytes() <= room && n < self.rows() && self.row_bytes() <= width
    }

    // The scan line and the plane of plane row n. The usual numbers of planes stand as constants, so that the compiler
    // divides by constants.
    fn place_of(self, n: usize) -> (usize, usize)
        requires { 0 < self.planes }
        ensures { result ≡ (n / self.planes, n % self.planes) }
    {
        match self.planes {
            1 => split(n, 1),
            2 => split(n, 2),
            4 => split(n, 4),
            planes => split(n, planes as usize),
        }
    }

    // Where the row of plane p in scan line y begins.
    #[tactic(auto, using(crate::proofs::Places::row_begins))]
    fn row_start(self, y: usize, p: usize) -> usize
        requires { (y < self.lines) × (p < self.planes) }
        ensures { result ≡ row_offset self (y * self.planes + p) 0 }
    {
        y * self.line_bytes() + p * 2
    }

    // Copies plane row n of the area to the front of row, word by word.
    #[tactic(auto, using(crate::proofs::Strides::copies))]
    fn copy_row(self, area: &[u8], n: usize, row: &mut [u8])
        requires { (bytes self ≤ length area.now) × (n < rows self) × (row_bytes self ≤ length row.old) }
        ensures { row.new ≡ over (plane_row area.now self n) row.old }
    {
        let (y, p) = self.place_of(n);
        let start = self.row_start(y, p);
        let stride = self.planes as usize * 2;
        for g in 0..self.groups as usize {
            let at = start + g * stride;
            let high = area[at];
            let low = area[at + 1];
            row[g * 2] = high;
            row[g * 2 + 1] = low;
        }
    }

    // Stores the first bytes of row to the row of plane p in scan line y of the area, word by word.
    #[tactic(auto, using(crate::proofs::Strides::puts))]
    fn store_row(self, area: &mut [u8], y: usize, p: usize, row: &[u8])
        requires in_bounds { (bytes self ≤ length area.old) × (row_bytes self ≤ length row.now) }
        requires place { (y < self.lines) × (p < self.planes) }
        ensures { area.new ≡ with_row area.old self (y * self.planes + p) row.now }
    {
        let start = self.row_start(y, p);
        let stride = self.planes as usize * 2;
        for g in 0..self.groups as usize {
            let at = start + g * stride;
            let high = row[g * 2];
            let low = row[g * 2 + 1];
            area[at] = high;
            area[at + 1] = low;
        }
    }

    // Whether the scan lines are interleaved: two planes or four, and plane rows of a multiple of eight bytes, 128 at
    // most.
    fn is_interleaved(self) -> bool
        ensures { result ≡ true → Interleaved self }
    {
        self.groups % 4 == 0 && self.groups <= 64 && matches!(self.planes, 2 | 4)
    }
}

// The scan line and the plane of plane row n, by the number of planes.
fn split(n: usize, planes: usize) -> (usize, usize)
    requires { 0 < planes }
    ensures { result ≡ (n / planes, n % planes) }
{
    (n / planes, n % planes)
}

// Plane row n of the area to the front of row. Where the row does not fit nothing changes.
#[tactic(auto, using(crate::proofs::Fits::fits))]
pub fn take_row(area: &[u8], r: Raster, n: usize, row: &mut [u8])
    ensures { row.new ≡ take_row area.now r n row.old }
{
    if r.row_fits(area.len(), n, row.len()) {
        r.copy_row(area, n, row);
    }
}

// The first bytes of row to plane row n of the area. Where the row does not fit nothing changes.
#[tactic(auto, using(crate::proofs::Fits::fits))]
pub fn put_row(area: &mut [u8], r: Raster, n: usize, row: &[u8])
    ensures { area.new ≡ put_row area.old r n row.now }
{
    if r.row_fits(area.len(), n, row.len()) {
        let (y, p) = r.place_of(n);
        r.store_row(area, y, p, row);
    }
}

// Puts all plane rows into the area, from where they stand one behind the other. Where the area or the rows are shorter
// than the raster nothing changes.
pub fn put_rows(area: &mut [u8], r: Raster, rows: &[u8])
    ensures { area.new ≡ put_joined r rows.now area.old }
{
    let spacing = Spacing {
        raster: r,
        step: r.line_bytes(),
        gap: r.row_bytes(),
    };
    spacing.put(area, rows);
}
