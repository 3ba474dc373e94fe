// Plane rows that stand evenly spaced in one list, put into a raster. Definitions: specs/Spaced.antt.
ghost use Rattle.std.specs.Prelude.{◌≡◌, ◌+◌, ◌-◌, ◌*◌, ◌<◌, ◌≤◌, length};
ghost use Rattle.lists.specs.Over.{over};
ghost use Rattle.raster.specs.Shape.{bytes};
ghost use Rattle.raster.specs.Joined.{interleaved_line, planes_of, plane_bytes, Interleaved};
ghost use Rattle.raster.specs.Spaced.{spaced_image, put_spaced, Spaced, LinePut};

use super::Raster;

// How the plane rows of a raster stand: those of each scan line `step` behind those of the one before, and in a scan
// line each plane's `gap` behind that of the one before.
#[derive(Clone, Copy)]
pub struct Spacing {
    pub raster: Raster,
    pub step: usize,
    pub gap: usize,
    pub ghost even: { Spaced raster step gap },
}

// Eight bytes of each of two plane rows, the second one a gap behind the first: their words in turn.
#[tactic(auto, using(crate::proofs::Interleave::eights))]
fn interleaved_eight(source: &[u8], at: usize, gap: usize) -> [u8; 16]
    requires { at + gap + 8 ≤ length source.now }
    ensures { result ≡ interleaved_line source.now at 2 gap 16 }
{
    let mut interleaved = [0u8; 16];
    for k in 0..16 {
        interleaved[k] = source[at + (k / 2 % 2 * gap + (k / 4 * 2 + k % 2))];
    }
    interleaved
}

// Interleaves two plane rows of `eights` times eight bytes, the second one `gap` behind the first, to the front of out.
// Eight bytes of both are read before any is written, so that the compiler moves the bytes together.
fn interleave_two(source: &[u8], at: usize, gap: usize, eights: usize, out: &mut [u8])
    requires { (at + gap + eights * 8 ≤ length source.now) × (eights * 16 ≤ length out.old) }
    ensures { out.new
        ≡ over (interleaved_line source.now at 2 gap (eights * 16)) out.old }
{
    for k in 0..eights {
        let interleaved = interleaved_eight(source, at + k * 8, gap);
        out[k * 16..k * 16 + 16].copy_from_slice(&interleaved);
    }
}

// Interleaves the four plane rows of a scan line, each one `gap` behind the one before: the first and the third, and
// the second and the fourth, into a buffer, and then those two to the front of out.
#[tactic(auto, using(crate::proofs::Interleave::interleave_pairs))]
fn interleave_four(
    source: &[u8],
    at: usize,
    gap: usize,
    eights: usize,
    half: &mut [u8],
    out: &mut [u8],
)
    requires eights_in_bounds { (at + 3 * gap + eights * 8 ≤ length source.now) × (eights * 32 ≤ length half.old) }
    requires eights_in_bounds_2 { eights * 32 ≤ length out.old }
    ensures { out.new
        ≡ over (interleaved_line source.now at 4 gap (eights * 32)) out.old }
{
    let pair = eights * 16;
    interleave_two(source, at, gap * 2, eights, half);
    interleave_two(source, at + gap, gap * 2, eights, &mut half[pair..]);
    interleave_two(half, 0, pair, eights * 2, out);
}

// Interleaves the plane rows of a scan line, two or four, each one `gap` behind the one before, to the front of out.
fn interleave_line(
    source: &[u8],
    at: usize,
    gap: usize,
    four: bool,
    eights: usize,
    half: &mut [u8],
    out: &mut [u8],
)
    requires eights_in_bounds { at + (planes_of four - 1) * gap + eights * 8 ≤ length source.now }
    requires eights_in_bounds_2 { (eights * 32 ≤ length half.old) × (eights * plane_bytes four ≤ length out.old) }
    ensures { out.new ≡ over (interleaved_line source.now at (planes_of four) gap
        (eights * plane_bytes four)) out.old }
{
    if four {
        interleave_four(source, at, gap, eights, half, out);
    } else {
        interleave_two(source, at, gap, eights, out);
    }
}

impl Spacing {
    // Puts the rows into the area, of a raster that is interleaved.
    fn interleave_lines(self, area: &mut [u8], rows: &[u8])
        requires in_bounds { (bytes self.raster ≤ length area.old) × (bytes self.raster ≤ length rows.now) }
        requires interleaved { Interleaved self.raster }
        ensures { area.new ≡ over (spaced_image self.raster self.step self.gap rows.now) area.old }
    {
        let four = self.raster.planes == 4;
        let eights = self.raster.groups as usize / 4;
        let line = self.raster.line_bytes();
        let mut half = [0u8; 512];
        for y in 0..self.raster.lines as usize {
            let at = y * self.step;
            interleave_line(
                rows,
                at,
                self.gap,
                four,
                eights,
                &mut half,
                &mut area[y * line..],
            );
        }
    }

    // Puts the rows of scan line y into the area one by one.
    #[tactic(auto, using(crate::proofs::Spaced::row_inside))]
    fn put_line(self, area: &mut [u8], rows: &[u8], y: usize)
        requires in_bounds { (bytes self.raster ≤ length area.old) × (bytes self.raster ≤ length rows.now) }
        requires line { y < self.raster.lines }
        ensures { LinePut self.raster self.step self.gap rows.now y self.raster.planes area.old area.new }
    {
        for p in 0..self.raster.planes as usize {
            let at = y * self.step + p * self.gap;
            self.raster.store_row(area, y, p, &rows[at..]);
        }
    }

    // Puts the rows into the area one by one.
    fn put_each(self, area: &mut [u8], rows: &[u8])
        requires { (bytes self.raster ≤ length area.old) × (bytes self.raster ≤ length rows.now) }
        ensures { area.new ≡ over (spaced_image self.raster self.step self.gap rows.now) area.old }
    {
        for y in 0..self.raster.lines as usize {
            self.put_line(area, rows, y);
        }
    }

    // Puts the rows into the area.
    fn put_all(self, area: &mut [u8], rows: &[u8])
        requires { (bytes self.raster ≤ length area.old) × (bytes self.raster ≤ length rows.now) }
        ensures { area.new ≡ over (spaced_image self.raster self.step self.gap rows.now) area.old }
    {
        if self.raster.planes == 1 {
            let n = self.raster.bytes();
            area[..n].copy_from_slice(&rows[..n]);
        } else if self.raster.is_interleaved() {
            self.interleave_lines(area, rows);
        } else {
            self.put_each(area, rows);
        }
    }

    // Puts the rows into the area. Where the area or the rows are shorter than the raster nothing changes.
    pub fn put(self, area: &mut [u8], rows: &[u8])
        ensures { area.new ≡ put_spaced self.raster self.step self.gap rows.now area.old }
    {
        let n = self.raster.bytes();
        if n <= area.len() && n <= rows.len() {
            self.put_all(area, rows);
        }
    }
}
