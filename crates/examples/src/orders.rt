// Inputs with two faults: the number is that of the fault that document 01 judges first ("Order of judging").
use legend::Legend;
use outcome::Refusal;
use picture::FILE_BYTES;
use reader::Kind;
use resolution::SCREEN_BYTES;
use std::io;
use tally::Rectangle;

// A kind and a form that no file has.
const UNKNOWN: u8 = 9;

// A resolution that no screen has.
const RESOLUTION: u16 = 3;

// Writes a label and why an input was refused; 0 at 0 where it was not.
fn show_refusal<T: Drop>(
    rt: &impl Print,
    label: &str,
    judged: Result<T, Refusal>,
) -> io::Result<()> {
    let refusal = judged.err().unwrap_or(outcome::none());
    println!(rt; "{label}: {} at {}", refusal.number, refusal.place)
}

// Reads a file into an area.
fn show_read(
    rt: &impl Print,
    label: &str,
    kind: u8,
    file: &[u8],
    area: &mut [u8],
) -> io::Result<()> {
    show_refusal(rt, label, reader::read(kind, file, area))
}

// Read: 1, 2, 3. The area and the file are each too short.
fn read_areas(rt: &impl Print) -> io::Result<()> {
    let file = [0u8; 1];
    let mut short = [0u8; 31999];
    show_read(
        rt,
        "read, short area, unknown kind",
        UNKNOWN,
        &file,
        &mut short,
    )?;
    let mut area = [0u8; SCREEN_BYTES];
    show_read(
        rt,
        "read, unknown kind, wrong length",
        UNKNOWN,
        &file,
        &mut area,
    )
}

// Read: 3, 4, 5 of a NEOchrome file.
fn read_neochrome(rt: &impl Print) -> io::Result<()> {
    let mut area = [0u8; SCREEN_BYTES];
    let cut = [1u8; 32127];
    show_read(
        rt,
        "read, NEOchrome of 32,127 bytes, flag 257",
        Kind::Neochrome as u8,
        &cut,
        &mut area,
    )?;
    let whole = [1u8; 32128];
    show_read(
        rt,
        "read, NEOchrome, flag 257, resolution 257",
        Kind::Neochrome as u8,
        &whole,
        &mut area,
    )
}

// Read: 3, 5, 3 of a DEGAS file.
fn read_degas(rt: &impl Print) -> io::Result<()> {
    let mut area = [0u8; SCREEN_BYTES];
    let cut = [3u8; 33];
    show_read(
        rt,
        "read, DEGAS of 33 bytes, resolution 3",
        Kind::Degas as u8,
        &cut,
        &mut area,
    )?;
    let raw = [3u8; 35];
    show_read(
        rt,
        "read, raw DEGAS of 35 bytes, resolution 3",
        Kind::Degas as u8,
        &raw,
        &mut area,
    )
}

// Writes a blank screen into an output.
fn show_write(
    rt: &impl Print,
    label: &str,
    form: u8,
    resolution: u16,
    out: &mut [u8],
) -> io::Result<()> {
    let screen = [0u8; SCREEN_BYTES];
    let picture = picture::without_tail(resolution, [0u16; 16]);
    show_refusal(rt, label, writer::write(form, picture, &screen, out))
}

// Write: 1, 2, 5.
fn write_order(rt: &impl Print) -> io::Result<()> {
    let mut short = [0u8; 32127];
    show_write(
        rt,
        "write, short output, unknown form",
        UNKNOWN,
        0,
        &mut short,
    )?;
    show_write(
        rt,
        "write, short output, resolution 3",
        crate::PACKED.number(),
        RESOLUTION,
        &mut short,
    )?;
    let mut out = [0u8; FILE_BYTES];
    show_write(
        rt,
        "write, unknown form, resolution 3",
        UNKNOWN,
        RESOLUTION,
        &mut out,
    )
}

// Unpacks a row into an output.
fn show_unpack(
    rt: &impl Print,
    label: &str,
    packed: &[u8],
    width: usize,
    out: &mut [u8],
) -> io::Result<()> {
    show_refusal(rt, label, unpack::unpack_row(packed, width, out))
}

// Row pack: 10, 1. Row unpack: 10, 1, and then the records; in one record the row's end before missing input.
fn row_orders(rt: &impl Print) -> io::Result<()> {
    let row = [0u8; 129];
    let mut short = [0u8; 2];
    let packed = pack::pack_row(&row, &mut short);
    show_refusal(rt, "row pack, 129 bytes, short output", packed)?;
    show_unpack(
        rt,
        "row unpack, width 129, short output",
        b"\xFD\x07",
        129,
        &mut short,
    )?;
    show_unpack(
        rt,
        "row unpack, short output, record across the row's end",
        b"\xFD\x07",
        3,
        &mut short,
    )?;
    show_unpack(
        rt,
        "row unpack, FE alone into a row of two",
        b"\xFE",
        2,
        &mut short,
    )?;
    let mut out = [0u8; 3];
    show_unpack(
        rt,
        "row unpack, 00 07 FE 07 into a row of three",
        b"\x00\x07\xFE\x07",
        3,
        &mut out,
    )
}

// Line out: 1, 5, 10, 1.
fn line_out_order(rt: &impl Print) -> io::Result<()> {
    let cut = [0u8; 31999];
    let screen = [0u8; SCREEN_BYTES];
    let mut short = [0u8; 319];
    show_refusal(
        rt,
        "line out, short screen, resolution 3",
        lines::line_out(&cut, RESOLUTION, 0, &mut short),
    )?;
    show_refusal(
        rt,
        "line out, resolution 3, line 400",
        lines::line_out(&screen, RESOLUTION, 400, &mut short),
    )?;
    show_refusal(
        rt,
        "line out, line 200, short output",
        lines::line_out(&screen, 0, 200, &mut short),
    )
}

// Line in: the same, and then the registers.
fn line_in_order(rt: &impl Print) -> io::Result<()> {
    let mut screen = [0u8; SCREEN_BYTES];
    let short = [16u8; 319];
    show_refusal(
        rt,
        "line in, line 200, short line",
        lines::line_in(&mut screen, 0, 200, &short),
    )?;
    show_refusal(
        rt,
        "line in, short line, register 16",
        lines::line_in(&mut screen, 0, 0, &short),
    )
}

// Tally: 1, 5, 10.
fn tally_order(rt: &impl Print) -> io::Result<()> {
    let rectangle = Rectangle {
        left: 1,
        top: 0,
        columns: 640,
        lines: 1,
    };
    let cut = [0u8; 31999];
    let short = tally::tally(&cut, RESOLUTION, rectangle);
    show_refusal(rt, "tally, short screen, resolution 3", short)?;
    let screen = [0u8; SCREEN_BYTES];
    let unknown = tally::tally(&screen, RESOLUTION, rectangle);
    show_refusal(rt, "tally, resolution 3, rectangle too wide", unknown)
}

// Pond reading: 1, 5, 10. Colour: 5, 10.
fn index_orders(rt: &impl Print) -> io::Result<()> {
    let screen = [0u8; SCREEN_BYTES];
    let rectangle = Rectangle {
        left: 0,
        top: 0,
        columns: 1,
        lines: 1,
    };
    let legend = Legend {
        owners: [1u8; 16],
        classes: [0u8; 16],
        confidences: [101u8; 16],
    };
    let pond = pond::read_pond(&screen, RESOLUTION, rectangle, 1, 0, 101, legend);
    show_refusal(rt, "pond reading, resolution 3, confidence 101", pond)?;
    let colour = colour::colour(RESOLUTION, 3, [0u16; 16], 16);
    show_refusal(rt, "colour, resolution 3, machine 3, register 16", colour)?;
    let on_another = colour::colour(0, 3, [0u16; 16], 0);
    show_refusal(rt, "colour, machine 3", on_another)
}

// An entry set and released: 10, 19.
fn legend_orders(rt: &impl Print) -> io::Result<()> {
    let free = legend::set_entry(legend::new_legend(), 1, 0, 7, 90);
    let Ok(ours) = free else {
        return show_refusal(rt, "set, free entry", free);
    };
    let set = legend::set_entry(ours, 2, 0, 256, 90);
    show_refusal(rt, "set, class 256, another's entry", set)?;
    let anothers = legend::set_entry(ours, 2, 0, 7, 90);
    show_refusal(rt, "set, another's entry", anothers)?;
    let release = legend::release_entry(ours, 3, 0);
    show_refusal(rt, "release, party 3, another's entry", release)?;
    let free = legend::release_entry(ours, 1, 1);
    show_refusal(rt, "release, free entry", free)
}

// All of them.
pub(crate) fn run(rt: &impl Print) -> io::Result<()> {
    read_areas(rt)?;
    read_neochrome(rt)?;
    read_degas(rt)?;
    write_order(rt)?;
    row_orders(rt)?;
    line_out_order(rt)?;
    line_in_order(rt)?;
    tally_order(rt)?;
    index_orders(rt)?;
    legend_orders(rt)
}
