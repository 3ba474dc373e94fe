// The registers of a scan line, or of all, taken from a screen or put into it. Definitions: specs/.
#![tactic(auto)]

ghost use Rattle.std.specs.Prelude.{◌≡◌, ℕ, ◌+◌, ◌-◌, ◌*◌, ◌/◌, ◌^◌, ◌<◌, ◌≤◌, true, cond, length, get_or, ltb};
ghost use Rattle.lists.specs.All.{all_first};
ghost use Rattle.lists.specs.Over.{over, over_at};
ghost use Rattle.lists.specs.Tabulate.{tabulate};
ghost use Rattle.outcome.specs.Outcome.{void, later};
ghost use Rattle.resolution.specs.Shapes.{width_of, height_of, screen_bytes};
ghost use Rattle.lines.specs.Blocks.{eight_registers, joined_word};
ghost use Rattle.lines.specs.Blocks.{four_registers, is_block_width, block_word, line_word, exchange, turn};
ghost use Rattle.lines.specs.Blocks.{block_byte, words_byte};
ghost use Rattle.lines.specs.Columns.{group_register, groups_line};
ghost use Rattle.lines.specs.Columns.{spread, spread_column, byte_of};
ghost use Rattle.lines.specs.Lines.{registers_fit, line_out_at, line_in_at, line_out, line_in};
ghost use Rattle.lines.specs.Registers.{scan_line, with_line};
ghost use Rattle.lines.specs.Screens.{pixels_of, screen_registers, with_lines, all_fit};
ghost use Rattle.lines.specs.Screens.{screen_out_at, screen_in_at, screen_out, screen_in};

mod spread;

use outcome::{Reason, Refusal};
use resolution::Resolution;
use spread::SPREAD;

// The table of `spread`, entry by entry.
fn spread_table() -> [u64; 256]
    ensures { result ≡ tabulate 256 spread }
{
    SPREAD
}

// A byte's bits, one to a byte.
#[tactic(auto, unfolding(crate::specs::Columns::spread))]
fn spread_byte(table: &[u64; 256], b: u8) -> u64
    requires { table.now ≡ tabulate 256 spread }
    ensures { (result ≡ spread b) × (result ≤ 72340172838076673) }
{
    table[b as usize]
}

// The registers of the column of eight pixels that lies within the screen and whose plane 0 is at an offset, one to a
// byte, the leftmost lowest: plane p adds 2^p.
fn spread_column<const PLANES: usize>(table: &[u64; 256], screen: &[u8], at: usize) -> u64
    requires table_value { table.now ≡ tabulate 256 spread }
    requires on_screen { (PLANES ≤ 4) × (at + (PLANES - 1) * 2 < screen_bytes) × (screen_bytes ≤ length screen.now) }
    ensures { result ≡ spread_column screen.now at PLANES }
{
    let mut column: u64 = 0;
    for p in 0..PLANES {
        column += spread_byte(table, screen[at + p * 2]) << p;
    }
    column
}

// Byte i of a number, the lowest first.
#[tactic(auto, unfolding(crate::specs::Columns::byte_of))]
fn byte_of(v: u64, i: usize) -> u8
    requires { i < 8 }
    ensures { result ≡ byte_of v i }
{
    ((v >> (i * 8)) % 256) as u8
}

// The eight bytes of a number, the lowest first, into out from offset x on.
fn put_eight(v: u64, out: &mut [u8], x: usize)
    requires { x + 8 ≤ length out.old }
    ensures { out.new ≡ over_at x (tabulate 8 (byte_of v)) out.old }
{
    out[x..x + 8].copy_from_slice(&v.to_le_bytes());
}

// The registers of a group that lies within the screen, plane 0's word at offset at, into out from offset x on.
fn copy_group<const PLANES: usize>(
    table: &[u64; 256],
    screen: &[u8],
    at: usize,
    out: &mut [u8],
    x: usize,
)
    requires table_value { table.now ≡ tabulate 256 spread }
    requires on_screen { (PLANES ≤ 4) × (at + 1 + (PLANES - 1) * 2 < screen_bytes)
        × (screen_bytes ≤ length screen.now) }
    requires room { x + 16 ≤ length out.old }
    ensures { out.new ≡ over_at x (tabulate 16 (group_register screen.now at PLANES)) out.old }
{
    let left = spread_column::<PLANES>(table, screen, at);
    let right = spread_column::<PLANES>(table, screen, at + 1);
    put_eight(left, out, x);
    put_eight(right, out, x + 8);
}

// The registers of the first groups of a scan line that begins at offset start, from the left, into out.
fn copy_groups<const PLANES: usize>(
    table: &[u64; 256],
    screen: &[u8],
    start: usize,
    groups: usize,
    out: &mut [u8],
)
    requires table_value { table.now ≡ tabulate 256 spread }
    requires on_screen { (0 < PLANES) × (PLANES ≤ 4) × (start + groups * (PLANES * 2) ≤ screen_bytes)
        × (screen_bytes ≤ length screen.now) }
    requires room { (groups ≤ 40) × (groups * 16 ≤ length out.old) }
    ensures { out.new ≡ over (groups_line screen.now start PLANES groups) out.old }
{
    for g in 0..groups {
        copy_group::<PLANES>(table, screen, start + g * (PLANES * 2), out, g * 16);
    }
}

// The registers of a scan line, from the left, into out. What the shape table says is repeated as constants of each
// resolution, so that the compiler computes with constants.
fn fill_line(table: &[u64; 256], screen: &[u8], r: Resolution, line: usize, out: &mut [u8])
    requires { (table.now ≡ tabulate 256 spread) × (screen_bytes ≤ length screen.now) × (line < height_of r)
        × (width_of r ≤ length out.old) }
    ensures { out.new ≡ over (scan_line screen.now r line) out.old }
{
    match r {
        Resolution::Low => copy_groups::<4>(table, screen, line * 160, 20, out),
        Resolution::Medium => copy_groups::<2>(table, screen, line * 160, 40, out),
        Resolution::High => copy_groups::<1>(table, screen, line * 80, 40, out),
    }
}

// Line out at a resolution.
fn line_out_at(screen: &[u8], r: Resolution, line: usize, out: &mut [u8]) -> Result<(), Refusal>
    requires { screen_bytes ≤ length screen.now }
    ensures value { result ≡ void (line_out_at screen.now r line (length out.old)) }
    ensures out_after { out.new ≡ later (line_out_at screen.now r line (length out.old))
        (λ l. over l out.old) out.old }
{
    if r.height() <= line {
        return Err(Reason::OutOfRange.refuse());
    }
    if out.len() < r.width() {
        return Err(Reason::AreaTooShort.refuse());
    }
    let table = spread_table();
    fill_line(&table, screen, r, line, out);
    Ok(())
}

// Line out: the registers of a scan line into out, one byte a pixel.
// Beside `line_in`: each has areas and clauses of its own, so that one for both is no plainer.
#[tactic(auto, unfolding(crate::specs::Lines::line_out))]
pub fn line_out(screen: &[u8], resolution: u16, line: usize, out: &mut [u8]) -> Result<(), Refusal>
    ensures value { result ≡ void (line_out screen.now resolution line (length out.old)) }
    ensures out_after { out.new ≡ later (line_out screen.now resolution line (length out.old))
        (λ l. over l out.old) out.old }
{
    let r = resolution::judge_screen(screen.len(), resolution)?;
    line_out_at(screen, r, line, out)
}

// The set bits of the first n registers: below a power of two just where each of them is.
fn set_bits(registers: &[u8], n: usize) -> u8
    requires { n ≤ length registers.now }
    ensures { (p : ℕ) → ltb result (2 ^ p) ≡ all_first n (λ x. ltb x (2 ^ p)) registers.now }
{
    registers[..n]
        .iter()
        .fold(0, |bits, register| bits | *register)
}

// Four registers, a byte each, the leftmost lowest.
#[tactic(auto, unfolding(crate::specs::Blocks::four_registers))]
fn four_registers(registers: &[u8], at: usize) -> u64
    requires { at + 4 ≤ length registers.now }
    ensures { (result ≡ four_registers registers.now at) × (result < 4294967296) }
{
    u64::from(registers[at])
        + u64::from(registers[at + 1]) * 256
        + u64::from(registers[at + 2]) * 65536
        + u64::from(registers[at + 3]) * 16777216
}

// Eight registers, a byte each, the leftmost lowest.
#[tactic(auto, unfolding(crate::specs::Blocks::eight_registers))]
fn eight_registers(registers: &[u8], at: usize) -> u64
    requires { at + 8 ≤ length registers.now }
    ensures { result ≡ eight_registers registers.now at }
{
    four_registers(registers, at) + four_registers(registers, at + 4) * 4294967296
}

// Two words in one, the first n bits up.
#[tactic(auto, unfolding(crate::specs::Blocks::joined_word))]
fn joined(above: u64, n: usize, below: u64) -> u64
    requires { n < 64 }
    ensures { result ≡ joined_word above n below }
{
    (above << n) | below
}

// Eight registers of each of a block's groups: byte k has the groups' registers k, that of the first group lowest. A
// block has 128 registers over the planes: 32 with four planes, 64 with two, 128 with one.
fn block_word<const WIDTH: usize>(registers: &[u8], at: usize) -> u64
    requires width { is_block_width WIDTH }
    requires room { at + WIDTH ≤ length registers.now + 8 }
    ensures { result ≡ block_word registers.now WIDTH at }
{
    let mut word: u64 = 0;
    for g in 0..WIDTH / 16 {
        word = joined(
            eight_registers(registers, at + g * 16),
            g * (128 / WIDTH),
            word,
        );
    }
    word
}

// The words of a line's first blocks, a left and a right one of each.
fn fill_words<const WIDTH: usize>(words: &mut [u64; 20], registers: &[u8], blocks: usize)
    requires width { is_block_width WIDTH }
    requires room { (length words.old ≡ 20) × (blocks ≤ 10) × (blocks * WIDTH ≤ 640)
        × (blocks * WIDTH ≤ length registers.now) }
    ensures { words.new ≡ over (tabulate (blocks * 2) (line_word registers.now WIDTH)) words.old }
{
    for b in 0..blocks {
        words[b * 2] = block_word::<WIDTH>(registers, b * WIDTH);
        words[b * 2 + 1] = block_word::<WIDTH>(registers, b * WIDTH + 8);
    }
}

// Each bit that the mask has, exchanged with the bit s places above it.
#[tactic(auto, unfolding(crate::specs::Blocks::exchange))]
fn exchanged(x: u64, s: usize, mask: u64) -> u64
    requires { s < 64 }
    ensures { result ≡ exchange s mask x }
{
    let differing = (x ^ (x >> s)) & mask;
    x ^ differing ^ (differing << s)
}

// The low four bits of each of the first four bytes.
const FOURS: u64 = 252645135;

// The low two bits of each four in bytes 0, 1, 4 and 5.
const TWOS: u64 = 56294136361779;

// The low bit of each two in bytes 0, 2, 4 and 6.
const ONES: u64 = 23925738098196565;

// A word of eight bytes turned over: bit q of byte k becomes bit 7 - k of byte 7 - q.
#[tactic(auto, unfolding(crate::specs::Blocks::turn))]
fn turned(x: u64) -> u64
    ensures { result ≡ turn x }
{
    let halves = exchanged(x, 36, FOURS);
    let quarters = exchanged(halves, 18, TWOS);
    exchanged(quarters, 9, ONES)
}

// Each word turned over. All are, also those of no block, so that the compiler turns two at once.
fn turn_words(words: &mut [u64; 20])
    requires { length words.old ≡ 20 }
    ensures { words.new ≡ tabulate 20 (λ i. turn (get_or words.old i 0)) }
{
    for word in words.iter_mut() {
        *word = turned(*word);
    }
}

// The words of a line's first blocks, turned over. All are made before a byte is written, so that the compiler works on
// two at once.
fn line_words<const WIDTH: usize>(registers: &[u8], blocks: usize) -> [u64; 20]
    requires width { is_block_width WIDTH }
    requires room { (blocks ≤ 10) × (blocks * WIDTH ≤ 640) × (blocks * WIDTH ≤ length registers.now) }
    ensures { (i : ℕ) → i < blocks * 2 → get_or result i 0 ≡ turn (line_word registers.now WIDTH i) }
{
    let mut words = [0u64; 20];
    fill_words::<WIDTH>(&mut words, registers, blocks);
    turn_words(&mut words);
    words
}

// Byte i of a block, from its left and its right word turned over.
fn block_byte(left: u64, right: u64, i: usize) -> u8
    requires { i < 16 }
    ensures { result ≡ block_byte left right i }
{
    if i % 2 == 0 {
        byte_of(left, 7 - i / 2)
    } else {
        byte_of(right, 7 - i / 2)
    }
}

// The bytes of a block into the screen from an offset on.
fn put_block(left: u64, right: u64, screen: &mut [u8], at: usize)
    requires { at + 16 ≤ length screen.old }
    ensures { screen.new ≡ over_at at (tabulate 16 (block_byte left right)) screen.old }
{
    for i in 0..16 {
        screen[at + i] = block_byte(left, right, i);
    }
}

// The bytes of blocks, from their words turned over, into the screen from offset start on.
fn put_words(words: &[u64; 20], screen: &mut [u8], start: usize, blocks: usize)
    requires { (blocks ≤ 10) × (start + blocks * 16 ≤ screen_bytes) × (screen_bytes ≤ length screen.old) }
    ensures { screen.new
        ≡ over_at start (tabulate (blocks * 16) (words_byte words.now)) screen.old }
{
    for b in 0..blocks {
        put_block(words[b * 2], words[b * 2 + 1], screen, start + b * 16);
    }
}

// The scan line that the registers make, into the screen. What the shape table says is repeated as constants of each
// resolution, so that the compiler computes with constants; the words are made by one call and written by another, or
// it would join the three arms.
fn put_line(screen: &mut [u8], r: Resolution, line: usize, registers: &[u8])
    requires screen_bytes_in_bounds { (screen_bytes ≤ length screen.old) × (line < height_of r)
        × (width_of r ≤ length registers.now) }
    requires registers_value { registers_fit r registers.now ≡ true }
    ensures { screen.new ≡ with_line screen.old r line registers.now }
{
    match r {
        Resolution::Low => put_words(&line_words::<32>(registers, 10), screen, line * 160, 10),
        Resolution::Medium => put_words(&line_words::<64>(registers, 10), screen, line * 160, 10),
        Resolution::High => put_words(&line_words::<128>(registers, 5), screen, line * 80, 5),
    }
}

// Line in at a resolution.
fn line_in_at(
    screen: &mut [u8],
    r: Resolution,
    line: usize,
    registers: &[u8],
) -> Result<(), Refusal>
    requires { screen_bytes ≤ length screen.old }
    ensures value { result ≡ void (line_in_at screen.old r line registers.now) }
    ensures screen_after { screen.new ≡ later (line_in_at screen.old r line registers.now)
        (λ s. s) screen.old }
{
    if r.height() <= line {
        return Err(Reason::OutOfRange.refuse());
    }
    if registers.len() < r.width() {
        return Err(Reason::AreaTooShort.refuse());
    }
    let bits = set_bits(registers, r.width());
    if r.registers() <= bits {
        return Err(Reason::OutOfRange.refuse());
    }
    put_line(screen, r, line, registers);
    Ok(())
}

// Line in: a scan line of the screen from registers, one byte a pixel.
// Beside `line_out`: each has areas and clauses of its own, so that one for both is no plainer.
#[tactic(auto, unfolding(crate::specs::Lines::line_in))]
pub fn line_in(
    screen: &mut [u8],
    resolution: u16,
    line: usize,
    registers: &[u8],
) -> Result<(), Refusal>
    ensures value { result ≡ void (line_in screen.old resolution line registers.now) }
    ensures screen_after { screen.new ≡ later (line_in screen.old resolution line registers.now)
        (λ s. s) screen.old }
{
    let r = resolution::judge_screen(screen.len(), resolution)?;
    line_in_at(screen, r, line, registers)
}

// Pixels of a screen.
fn pixels(r: Resolution) -> usize
    ensures { result ≡ pixels_of r }
{
    r.height() * r.width()
}

// The registers of all pixels, line after line from the top, into out.
fn copy_lines(table: &[u64; 256], screen: &[u8], r: Resolution, out: &mut [u8])
    requires { (table.now ≡ tabulate 256 spread) × (screen_bytes ≤ length screen.now)
        × (pixels_of r ≤ length out.old) }
    ensures { out.new ≡ over (screen_registers screen.now r) out.old }
{
    let width = r.width();
    let height = r.height();
    for y in 0..height {
        fill_line(table, screen, r, y, &mut out[y * width..]);
    }
}

// Screen out at a resolution.
fn screen_out_at(screen: &[u8], r: Resolution, out: &mut [u8]) -> Result<(), Refusal>
    requires { screen_bytes ≤ length screen.now }
    ensures value { result ≡ void (screen_out_at screen.now r (length out.old)) }
    ensures out_after { out.new ≡ later (screen_out_at screen.now r (length out.old))
        (λ l. over l out.old) out.old }
{
    if out.len() < pixels(r) {
        return Err(Reason::AreaTooShort.refuse());
    }
    let table = spread_table();
    copy_lines(&table, screen, r, out);
    Ok(())
}

// Screen out: the registers of all pixels into out, line after line from the top, one byte a pixel.
// Beside `screen_in`: each has areas and clauses of its own, so that one for both is no plainer.
#[tactic(auto, unfolding(crate::specs::Screens::screen_out))]
pub fn screen_out(screen: &[u8], resolution: u16, out: &mut [u8]) -> Result<(), Refusal>
    ensures value { result ≡ void (screen_out screen.now resolution (length out.old)) }
    ensures out_after { out.new ≡ later (screen_out screen.now resolution (length out.old))
        (λ l. over l out.old) out.old }
{
    let r = resolution::judge_screen(screen.len(), resolution)?;
    screen_out_at(screen, r, out)
}

// The scan lines that the registers make, line after line from the top, into the screen.
fn put_lines(screen: &mut [u8], r: Resolution, registers: &[u8])
    requires { (screen_bytes ≤ length screen.old) × (pixels_of r ≤ length registers.now)
        × (all_fit r registers.now ≡ true) }
    ensures { screen.new ≡ with_lines screen.old r registers.now (height_of r) }
{
    let width = r.width();
    let height = r.height();
    for y in 0..height {
        put_line(screen, r, y, &registers[y * width..]);
    }
}

// Screen in at a resolution.
fn screen_in_at(screen: &mut [u8], r: Resolution, registers: &[u8]) -> Result<(), Refusal>
    requires { screen_bytes ≤ length screen.old }
    ensures value { result ≡ void (screen_in_at screen.old r registers.now) }
    ensures screen_after { screen.new ≡ later (screen_in_at screen.old r registers.now)
        (λ s. s) screen.old }
{
    let n = pixels(r);
    if registers.len() < n {
        return Err(Reason::AreaTooShort.refuse());
    }
    let all = set_bits(registers, n);
    if r.registers() <= all {
        return Err(Reason::OutOfRange.refuse());
    }
    put_lines(screen, r, registers);
    Ok(())
}

// Screen in: all pixels of the screen from registers, line after line from the top, one byte a pixel.
// Beside `screen_out`: each has areas and clauses of its own, so that one for both is no plainer.
#[tactic(auto, unfolding(crate::specs::Screens::screen_in))]
pub fn screen_in(screen: &mut [u8], resolution: u16, registers: &[u8]) -> Result<(), Refusal>
    ensures value { result ≡ void (screen_in screen.old resolution registers.now) }
    ensures screen_after { screen.new ≡ later (screen_in screen.old resolution registers.now)
        (λ s. s) screen.old }
{
    let r = resolution::judge_screen(screen.len(), resolution)?;
    screen_in_at(screen, r, registers)
}
