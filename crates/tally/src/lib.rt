// How many pixels of a rectangle have each register. Definitions: specs/.
#![tactic(auto)]

ghost use Rattle.std.specs.Prelude.{◌≡◌, ℕ, ◌+◌, ◌-◌, ◌*◌, ◌/◌, ◌^◌, ◌<◌, ◌≤◌};
ghost use Rattle.std.specs.Prelude.{leb, cond, true, length, get_or, replicate};
ghost use Rattle.std.specs.Int.Count.{ones};
ghost use Rattle.lists.specs.Tabulate.{tabulate};
ghost use Rattle.resolution.specs.Shapes.{screen_bytes, width_of, height_of, planes_of};
ghost use Rattle.words.specs.Word.{word_at};
ghost use Rattle.tally.specs.Blocks.{swapped, reversed, plane_block, block_at, reversed_block};
ghost use Rattle.tally.specs.Blocks.{part_register, strip_register, blocks_register, register_set};
ghost use Rattle.tally.specs.Blocks.{Spaced, OnScreen, most_blocks};
ghost use Rattle.tally.specs.Counts.{most_pixels, most_counted, CountsTo, counted, line_counts, counted_lines};
ghost use Rattle.tally.specs.Counts.{counts, tallied_at, tallied, tally_answer};
ghost use Rattle.tally.specs.Rectangles.{rectangle_fits};

use outcome::{Reason, Refusal};
use resolution::Resolution;

// A rectangle of pixels: its left column, top line, columns and lines.
#[repr(C)]
#[derive(Clone, Copy)]
pub struct Rectangle {
    pub left: usize,
    pub top: usize,
    pub columns: usize,
    pub lines: usize,
}

// The answer of a tally in C: how many pixels have each of 16 registers. A refusal has 0 in all else.
// C's struct: the exported function gives it back.
#[repr(C)]
#[derive(Clone, Copy)]
pub struct TallyAnswer {
    pub refusal: Refusal,
    pub counts: [u32; 16],
}

impl From<Result<[u32; 16], Refusal>> for TallyAnswer {
    ghost from_gives = { λ given answer. answer ≡ tally_answer given };

    fn from(given: Result<[u32; 16], Refusal>) -> TallyAnswer {
        match given {
            Ok(counts) => TallyAnswer {
                refusal: outcome::none(),
                counts,
            },
            Err(refusal) => TallyAnswer {
                refusal,
                counts: [0u32; 16],
            },
        }
    }
}

// Whether start + count is at most limit, as whole numbers.
fn within(start: usize, count: usize, limit: usize) -> bool
    ensures { result ≡ leb (start + count) limit }
{
    start <= limit && count <= limit - start
}

// Whether a rectangle lies within the screen.
fn rectangle_fits(r: Resolution, rectangle: Rectangle) -> bool
    ensures { result ≡ rectangle_fits r rectangle }
{
    within(rectangle.left, rectangle.columns, r.width())
        && within(rectangle.top, rectangle.lines, r.height())
}

// 64 pixels of a scan line in each plane: eight bytes, the first the lowest, so that bytes side by side are one load.
#[derive(Clone, Copy)]
struct Block {
    first: u64,
    second: u64,
    third: u64,
    fourth: u64,
}

// All 64 digits set.
const ALL: u64 = 18446744073709551615;

// The pixels of a block.
const BLOCK_PIXELS: usize = 64;

// The bytes of a block in one plane.
const PLANE_BYTES: usize = 8;

// The bytes of a scan line at high resolution, which has one plane.
const HIGH_LINE_BYTES: usize = 80;

// The word at an offset, its bytes in reverse order.
#[tactic(auto, unfolding(words::specs::Word::word_at))]
fn swapped_word(s: &[u8], at: usize) -> u64
    requires { at + 1 < length s.now }
    ensures { (result ≡ swapped (word_at s.now at)) × (result < 65536) }
{
    u64::from(s[at + 1]) * 256 + u64::from(s[at])
}

// Four words of a plane, stride bytes apart, their bytes in reverse order.
fn plane_block(s: &[u8], at: usize, stride: usize) -> u64
    requires { (at + stride * 3 + 1 < length s.now) × (stride ≤ 8) }
    ensures { result ≡ reversed (plane_block s.now at stride) }
{
    ((swapped_word(s, at + stride * 3) * 65536 + swapped_word(s, at + stride * 2)) * 65536
        + swapped_word(s, at + stride))
        * 65536
        + swapped_word(s, at)
}

// Some pixels of a block, side by side: so many, with so many to their right.
#[derive(Clone, Copy)]
struct Part {
    pixels: usize,
    right: usize,
    ghost within: { (0 < pixels) × (pixels + right ≤ 64) },
}

impl Part {
    // Their digits.
    fn digits(self) -> u64
        ensures { result ≡ 2 ^ (self.pixels + self.right) - 2 ^ self.right }
    {
        (ALL >> (BLOCK_PIXELS - self.pixels)) << self.right
    }

    // Their digits in a number whose first byte is the lowest.
    fn swapped_digits(self) -> u64
        ensures { result ≡ reversed (2 ^ (self.pixels + self.right) - 2 ^ self.right) }
    {
        self.digits().swap_bytes()
    }
}

// Blocks that begin step bytes apart, the first at an offset.
#[derive(Clone, Copy)]
struct Strip {
    at: usize,
    step: usize,
    blocks: usize,
}

// A count, and the set digits of x.
fn more(count: u32, x: u64) -> u32
    requires { count ≤ most_counted }
    ensures { result ≡ count + ones x }
{
    count + x.count_ones()
}

// The pixels of a block with each register, of those among which one is asked for.
fn register_sets(b: Block, among: u64) -> [u64; 16]
    ensures { result ≡ tabulate 16 (λ k. register_set b among k) }
{
    let p0 = b.first;
    let p1 = b.second;
    let p2 = b.third;
    let p3 = b.fourth;
    let n0 = !p0;
    let n1 = !p1;
    let n2 = !p2;
    let n3 = !p3;
    let a0 = n0 & n1;
    let a1 = p0 & n1;
    let a2 = n0 & p1;
    let a3 = p0 & p1;
    let b0 = n2 & n3 & among;
    let b1 = p2 & n3 & among;
    let b2 = n2 & p3 & among;
    let b3 = p2 & p3 & among;
    [
        a0 & b0,
        a1 & b0,
        a2 & b0,
        a3 & b0,
        a0 & b1,
        a1 & b1,
        a2 & b1,
        a3 & b1,
        a0 & b2,
        a1 & b2,
        a2 & b2,
        a3 & b2,
        a0 & b3,
        a1 & b3,
        a2 & b3,
        a3 & b3,
    ]
}

// Adds to each count the size of its set, where there is one.
fn count_sets(counts: &mut [u32; 16], sets: &[u64])
    requires { CountsTo most_counted counts.old × (length sets.now ≤ 16) }
    ensures { counts.new
        ≡ tabulate 16 (λ v. get_or counts.old v 0 + ones (get_or sets.now v 0)) }
{
    for (v, set) in sets.iter().enumerate() {
        counts[v] = more(counts[v], *set);
    }
}

// A plane of a block, or 0 where it is not there.
fn present_plane(screen: &[u8], at: usize, stride: usize, present: bool) -> u64
    requires { (present ≡ true → at + stride * 3 + 1 < length screen.now) × (stride ≤ 8) }
    ensures { result ≡ cond present (reversed (plane_block screen.now at stride)) 0 }
{
    if present {
        plane_block(screen, at, stride)
    } else {
        0
    }
}

// The block that begins at an offset.
fn block_at<const PLANES: usize>(screen: &[u8], at: usize) -> Block
    requires { (0 < PLANES) × (PLANES ≤ 4) × (at + PLANES * 8 ≤ screen_bytes) × (screen_bytes ≤ length screen.now) }
    ensures { result ≡ reversed_block (block_at screen.now at PLANES) }
{
    Block {
        first: plane_block(screen, at, PLANES * 2),
        second: present_plane(screen, at + 2, PLANES * 2, 1 < PLANES),
        third: present_plane(screen, at + 4, PLANES * 2, 2 < PLANES),
        fourth: present_plane(screen, at + 6, PLANES * 2, 3 < PLANES),
    }
}

// Counts a part of the block that begins at an offset. No pixel has a register that the planes cannot name.
fn count_part<const PLANES: usize>(counts: &mut [u32; 16], screen: &[u8], at: usize, part: Part)
    requires counts_to { CountsTo most_counted counts.old }
    requires on_screen { (0 < PLANES) × (PLANES ≤ 4) × (at + PLANES * 8 ≤ screen_bytes)
        × (screen_bytes ≤ length screen.now) }
    ensures { counts.new
        ≡ counted counts.old (part_register (block_at screen.now at PLANES) part.pixels part.right) part.pixels }
{
    let sets = register_sets(block_at::<PLANES>(screen, at), part.swapped_digits());
    count_sets(counts, &sets[..1 << PLANES]);
}

// Of a part of each block of one plane, the pixels with register 1.
fn ones_apart<const STEP: usize>(screen: &[u8], strip: Strip, part: Part) -> u32
    requires step { STEP ≡ strip.step }
    requires on_screen { OnScreen screen.now 1 strip }
    ensures { result
        ≡ line_counts (strip_register screen.now 1 strip part.pixels part.right) part.pixels strip.blocks 1 }
{
    let among = part.swapped_digits();
    let mut ones: u32 = 0;
    for j in 0..strip.blocks {
        ones = more(ones, plane_block(screen, strip.at + j * STEP, 2) & among);
    }
    ones
}

// The same, of blocks that follow each other or lie one below the other: the compiler computes with a constant step.
fn ones_in(screen: &[u8], strip: Strip, part: Part) -> u32
    requires step { (strip.step ≡ 8 → ⊥) → strip.step ≡ 80 }
    requires on_screen { OnScreen screen.now 1 strip }
    ensures { result
        ≡ line_counts (strip_register screen.now 1 strip part.pixels part.right) part.pixels strip.blocks 1 }
{
    if strip.step == PLANE_BYTES {
        return ones_apart::<PLANE_BYTES>(screen, strip, part);
    }
    ones_apart::<HIGH_LINE_BYTES>(screen, strip, part)
}

// Counts a part of each block of one plane: the pixels that have not register 1 have register 0.
fn count_one(counts: &mut [u32; 16], screen: &[u8], strip: Strip, part: Part)
    requires counts_to { CountsTo most_pixels counts.old }
    requires step { (strip.step ≡ 8 → ⊥) → strip.step ≡ 80 }
    requires on_screen { OnScreen screen.now 1 strip }
    ensures { counts.new
        ≡ counted_lines counts.old (strip_register screen.now 1 strip part.pixels part.right) part.pixels strip.blocks }
{
    let ones = ones_in(screen, strip, part);
    let pixels = (part.pixels * strip.blocks) as u32;
    counts[0] = counts[0] + (pixels - ones);
    counts[1] = counts[1] + ones;
}

// Counts a part of each block.
fn count_column<const PLANES: usize>(
    counts: &mut [u32; 16],
    screen: &[u8],
    strip: Strip,
    part: Part,
)
    requires counts_to { CountsTo most_pixels counts.old }
    requires planes { (0 < PLANES) × (PLANES ≤ 4) × Spaced PLANES strip.step }
    requires on_screen { OnScreen screen.now PLANES strip }
    ensures { counts.new
        ≡ counted_lines counts.old (strip_register screen.now PLANES strip part.pixels part.right) part.pixels
        strip.blocks }
{
    if PLANES == 1 {
        count_one(counts, screen, strip, part);
        return;
    }
    for j in 0..strip.blocks {
        count_part::<PLANES>(counts, screen, strip.at + j * strip.step, part);
    }
}

// Of lines that begin step bytes apart, how many pixels in some columns have each register. The loop goes from block to
// block across, so that a block's columns are worked out once for all lines.
fn count_columns<const PLANES: usize>(
    screen: &[u8],
    lines: Strip,
    left: usize,
    columns: usize,
) -> [u32; 16]
    requires planes { (0 < PLANES) × (PLANES ≤ 4) × Spaced PLANES lines.step }
    requires few { (lines.blocks ≤ most_blocks) × (lines.blocks * columns ≤ most_pixels) × (left + columns ≤ 640)
        × (lines.at ≤ screen_bytes) }
    requires on_screen { ((j x : ℕ) → j < lines.blocks → x < left + columns
        → lines.at + x / 64 * (PLANES * 8) + j * lines.step + PLANES * 8 ≤ screen_bytes)
        × (screen_bytes ≤ length screen.now) }
    ensures { result ≡ counted_lines (replicate 16 0)
        (λ j i. blocks_register screen.now (lines.at + j * lines.step) PLANES (left + i)) columns lines.blocks }
{
    let mut sums = [0u32; 16];
    let mut i: usize = 0;
    // By while: the step is the part of the block.
    while i < columns {
        let x = left + i;
        let pixels = (BLOCK_PIXELS - x % BLOCK_PIXELS).min(columns - i);
        let part = Part {
            pixels,
            right: BLOCK_PIXELS - x % BLOCK_PIXELS - pixels,
        };
        let strip = Strip {
            at: lines.at + x / BLOCK_PIXELS * (PLANES * PLANE_BYTES),
            step: lines.step,
            blocks: lines.blocks,
        };
        count_column::<PLANES>(&mut sums, screen, strip, part);
        i += pixels;
    }
    sums
}

// How many pixels of a rectangle have each register. A rectangle as wide as the screen is a run of blocks, and is
// counted as one column of them.
fn count_lines<const PLANES: usize>(screen: &[u8], r: Resolution, rectangle: Rectangle) -> [u32; 16]
    requires planes { PLANES ≡ planes_of r }
    requires on_screen { (screen_bytes ≤ length screen.now) × (rectangle.left + rectangle.columns ≤ width_of r)
        × (rectangle.top + rectangle.lines ≤ height_of r) }
    ensures { result ≡ counts screen.now r rectangle }
{
    let width = r.width();
    let at = rectangle.top * r.line_bytes();
    if rectangle.columns == width {
        let run = Strip {
            at,
            step: PLANES * PLANE_BYTES,
            blocks: rectangle.lines * (width / BLOCK_PIXELS),
        };
        return count_columns::<PLANES>(screen, run, 0, BLOCK_PIXELS);
    }
    let lines = Strip {
        at,
        step: r.line_bytes(),
        blocks: rectangle.lines,
    };
    count_columns::<PLANES>(screen, lines, rectangle.left, rectangle.columns)
}

// The same: the compiler computes with a constant number of planes.
fn count_rectangle(screen: &[u8], r: Resolution, rectangle: Rectangle) -> [u32; 16]
    requires { (screen_bytes ≤ length screen.now) × (rectangle.left + rectangle.columns ≤ width_of r)
        × (rectangle.top + rectangle.lines ≤ height_of r) }
    ensures { result ≡ counts screen.now r rectangle }
{
    match r {
        Resolution::Low => count_lines::<4>(screen, r, rectangle),
        Resolution::Medium => count_lines::<2>(screen, r, rectangle),
        Resolution::High => count_lines::<1>(screen, r, rectangle),
    }
}

// Tally at a resolution.
fn tally_at(screen: &[u8], r: Resolution, rectangle: Rectangle) -> Result<[u32; 16], Refusal>
    requires { screen_bytes ≤ length screen.now }
    ensures { result ≡ tallied_at screen.now r rectangle }
{
    if !rectangle_fits(r, rectangle) {
        return Err(Reason::OutOfRange.refuse());
    }
    Ok(count_rectangle(screen, r, rectangle))
}

// Tally: how many pixels of a rectangle have each of 16 registers.
// Beside `screen_out` of lines: one judgement and one call, so that one for both is no plainer.
#[tactic(auto, unfolding(crate::specs::Counts::tallied))]
pub fn tally(screen: &[u8], resolution: u16, rectangle: Rectangle) -> Result<[u32; 16], Refusal>
    ensures { result ≡ tallied screen.now resolution rectangle }
{
    let r = resolution::judge_screen(screen.len(), resolution)?;
    tally_at(screen, r, rectangle)
}
