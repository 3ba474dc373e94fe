// Runs document 01's examples that are not proved, one function each, then its house choices and its orders of judging,
// and writes what comes of them after a short label. The blank file's summary is run by crates/summary.
#![tactic(auto)]

ghost use Rattle.std.specs.Prelude.{◌+◌, ◌≤◌, length, ◌≡◌};
ghost use Rattle.pack.specs.Pack.{max_body};

use picture::FILE_BYTES;
use report::SUMMARY_BYTES;
use resolution::{Resolution, SCREEN_BYTES};
use std::io;
use writer::Form;

mod house;
mod orders;

// The form of a packed DEGAS file.
const PACKED: Form = Form::Degas(degas::Form::Packed);

// Writes a label and the summary of a file.
fn show(rt: &impl Print, label: &str, file: &[u8]) -> io::Result<()> {
    let mut text = [0u8; SUMMARY_BYTES];
    print!(rt; "{label}: ")?;
    match report::summarise(file, &mut text) {
        Ok(end) => rt.write_all(&text[..end]),
        Err(refusal) => println!(rt; "no summary, {}", refusal.number),
    }
}

// The plane rows of a low screen.
const LOW_ROWS: usize = 800;

// The records of a blank low screen, 800 times D9 00, over zeros from an offset on.
fn put_blank_rows(file: &mut [u8], at: usize)
    requires { at + 1600 ≤ length file.old }
{
    for n in 0..LOW_ROWS {
        file[at + n * 2] = 0xD9;
    }
}

// The blank file less its last byte.
fn blank_less_last(rt: &impl Print) -> io::Result<()> {
    let mut file = [0u8; 1665];
    file[0] = 0x80;
    put_blank_rows(&mut file, 34);
    show(rt, "blank file less its last byte", &file)
}

// The blank file with one 80 before its first record.
fn blank_with_no_op(rt: &impl Print) -> io::Result<()> {
    let mut file = [0u8; 1667];
    file[0] = 0x80;
    file[34] = 0x80;
    put_blank_rows(&mut file, 35);
    show(rt, "one 80 before the first record", &file)
}

// The blank file with all bits of its first plane row set: that row is plane 0, so the line's registers are 1.
fn first_row_set(rt: &impl Print) -> io::Result<()> {
    let mut file = [0u8; 1666];
    file[0] = 0x80;
    put_blank_rows(&mut file, 34);
    file[35] = 0xFF;
    show(rt, "first plane row set", &file)
}

// A packed file that ends where its body starts.
fn no_body(rt: &impl Print) -> io::Result<()> {
    let mut file = [0u8; 34];
    file[0] = 0x80;
    show(rt, "34 bytes, first word 8000", &file)
}

// The same, followed by a repeat of 41 bytes, in rows of 40.
fn crossing_record(rt: &impl Print) -> io::Result<()> {
    let mut file = [0u8; 36];
    file[0] = 0x80;
    file[34] = 0xD8;
    show(rt, "first data byte D8 with one byte after it", &file)
}

// Byte c of a row that begins with `equal` equal bytes.
fn row_byte(equal: usize, c: usize) -> u8 {
    if c < equal { 7 } else { (c % 2) as u8 }
}

// A row of `equal` equal bytes, and then bytes that differ from their neighbours.
fn row_of(equal: usize) -> [u8; 40]
    ensures { 40 ≡ length result }
{
    let mut row = [0u8; 40];
    for (c, byte) in row.iter_mut().enumerate() {
        *byte = row_byte(equal, c);
    }
    row
}

// The length of a row's least body.
fn row_least(row: &[u8]) -> usize
    ensures { result ≤ max_body }
{
    pack::least_len(row)
}

// The rows of a low screen: the first begins with `first` equal bytes, and the others with three.
fn put_rows(screen: &mut [u8], first: usize) {
    let low = Resolution::Low.raster();
    let row = row_of(3);
    for n in 0..LOW_ROWS {
        raster::put_row(screen, low, n, &row);
    }
    let front = row_of(first);
    raster::put_row(screen, low, 0, &front);
}

// Writes the length of such a screen's least body, and what writing it as form 3 gives.
fn rows_of_three(rt: &impl Print, label: &str, first: usize) -> io::Result<()> {
    let mut screen = [0u8; SCREEN_BYTES];
    put_rows(&mut screen, first);
    let picture = picture::without_tail(0, [0u16; 16]);
    let mut out = [0u8; FILE_BYTES];
    let (number, body) = match writer::write(PACKED.number(), picture, &screen, &mut out) {
        Ok(written) => (0, written.body),
        Err(refusal) => (refusal.number, 0),
    };
    let least = row_least(&row_of(first)) + (LOW_ROWS - 1) * row_least(&row_of(3));
    println!(rt; "{label}: least body {least}, number {number}, body {body}")
}

fn main(rt: HostRuntime) -> io::Result<()> {
    blank_less_last(&rt)?;
    blank_with_no_op(&rt)?;
    no_body(&rt)?;
    crossing_record(&rt)?;
    rows_of_three(&rt, "800 rows of three equal and 37 more", 3)?;
    rows_of_three(&rt, "one of them made four equal and 36", 4)?;
    first_row_set(&rt)?;
    house::run(&rt)?;
    orders::run(&rt)
}
