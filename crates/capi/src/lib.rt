// The C library: every operation under a C name. The declarations for C are in include/kutimuq.h.
#![tactic(auto)]

ghost use Rattle.std.specs.Prelude.{◌≡◌, length};
ghost use Rattle.lists.specs.Over.{over};
ghost use Rattle.outcome.specs.Outcome.{refusal_of, later};
ghost use Rattle.packbits.specs.Row.{row_answer, row_output};
ghost use Rattle.packbits.specs.Unpack.{unpack_row};
ghost use Rattle.pack.specs.Pack.{pack_row};
ghost use Rattle.lines.specs.Lines.{line_out, line_in};
ghost use Rattle.lines.specs.Screens.{screen_out, screen_in};
ghost use Rattle.tally.specs.Counts.{tallied, tally_answer};
ghost use Rattle.colour.specs.Shown.{shown, colour_answer};
ghost use Rattle.legend.specs.Entries.{new_legend};
ghost use Rattle.legend.specs.Setting.{setting, releasing, legend_answer};
ghost use Rattle.pond.specs.Reading.{pond_reading, pond_answer};
ghost use Rattle.picture.specs.Reading.{read_answer, read_area};
ghost use Rattle.picture.specs.Writing.{write_answer, write_output};
ghost use Rattle.reader.specs.Reading.{read_file};
ghost use Rattle.writer.specs.Writing.{write_file};
ghost use Rattle.bodies.specs.Reading.{body_area};
ghost use Rattle.bodies.specs.Unpacking.{unpacked_answer};
ghost use Rattle.gem_img.specs.Reading.{read_img, img_answer, img_area};
ghost use Rattle.macpaint.specs.Reading.{read_plate};
ghost use Rattle.macpaint.specs.Writing.{write_plate};
ghost use Rattle.conversion.specs.declared.Conversion.TheVariants.{ToElite, ToPlain};
ghost use Rattle.conversion.specs.Converting.{convert};
ghost use Rattle.degas_records.specs.Answers.{cursor_answer, record_answer};
ghost use Rattle.degas_records.specs.Opening.{packed_opening};
ghost use Rattle.degas_records.specs.Steps.{stepped};
ghost use Rattle.neochrome_animation.specs.Judging.{animation, animation_answer};
ghost use Rattle.spectrum.specs.Reading.{read_spectrum, screen_area, palette_area};
ghost use Rattle.spectrum_positions.specs.Positions.{judge_position, position_answer};
ghost use Rattle.spectrum_colours.specs.Colours.{pixel_word, word_answer, line_of_words};

use bodies::BodyAnswer;
use colour::ColourAnswer;
use conversion::Conversion;
use degas_records::{CursorAnswer, RecordAnswer, RecordCursor};
use gem_img::ImgAnswer;
use legend::{Legend, LegendAnswer};
use neochrome_animation::AnimationAnswer;
use outcome::Refusal;
use packbits::RowAnswer;
use picture::{Picture, ReadAnswer, WriteAnswer};
use pond::PondAnswer;
use spectrum_colours::ColourWordAnswer;
use spectrum_positions::PositionAnswer;
use tally::{Rectangle, TallyAnswer};

// The 16 words of a palette: C passes no array by value.
#[repr(C)]
#[derive(Clone, Copy)]
pub struct Palette {
    pub words: [u16; 16],
}

// Row unpack.
#[unsafe(no_mangle)]
pub extern "C" fn kutimuq_unpack_row(packed: &[u8], width: usize, out: &mut [u8]) -> RowAnswer
    ensures answer { result ≡ row_answer (unpack_row packed.now width (length out.old)) }
    ensures output { out.new
        ≡ row_output (unpack_row packed.now width (length out.old)) out.old }
{
    unpack::unpack_row(packed, width, out).into()
}

// Row pack.
#[unsafe(no_mangle)]
pub extern "C" fn kutimuq_pack_row(row: &[u8], out: &mut [u8]) -> RowAnswer
    ensures answer { result ≡ row_answer (pack_row row.now (length out.old)) }
    ensures output { out.new
        ≡ row_output (pack_row row.now (length out.old)) out.old }
{
    pack::pack_row(row, out).into()
}

// Line out.
#[unsafe(no_mangle)]
pub extern "C" fn kutimuq_line_out(
    screen: &[u8],
    resolution: u16,
    line: usize,
    out: &mut [u8],
) -> Refusal
    ensures answer { result
        ≡ refusal_of (line_out screen.now resolution line (length out.old)) }
    ensures output { out.new
        ≡ later (line_out screen.now resolution line (length out.old))
        (λ l. over l out.old) out.old }
{
    lines::line_out(screen, resolution, line, out).into()
}

// Line in.
#[unsafe(no_mangle)]
pub extern "C" fn kutimuq_line_in(
    screen: &mut [u8],
    resolution: u16,
    line: usize,
    registers: &[u8],
) -> Refusal
    ensures answer { result ≡ refusal_of (line_in screen.old resolution line registers.now) }
    ensures screen { screen.new
        ≡ later (line_in screen.old resolution line registers.now)
        (λ s. s) screen.old }
{
    lines::line_in(screen, resolution, line, registers).into()
}

// Screen out.
#[unsafe(no_mangle)]
pub extern "C" fn kutimuq_screen_out(screen: &[u8], resolution: u16, out: &mut [u8]) -> Refusal
    ensures answer { result
        ≡ refusal_of (screen_out screen.now resolution (length out.old)) }
    ensures output { out.new
        ≡ later (screen_out screen.now resolution (length out.old))
        (λ l. over l out.old) out.old }
{
    lines::screen_out(screen, resolution, out).into()
}

// Screen in.
#[unsafe(no_mangle)]
pub extern "C" fn kutimuq_screen_in(screen: &mut [u8], resolution: u16, registers: &[u8]) -> Refusal
    ensures answer { result ≡ refusal_of (screen_in screen.old resolution registers.now) }
    ensures screen { screen.new
        ≡ later (screen_in screen.old resolution registers.now)
        (λ s. s) screen.old }
{
    lines::screen_in(screen, resolution, registers).into()
}

// Tally.
#[unsafe(no_mangle)]
pub extern "C" fn kutimuq_tally(screen: &[u8], resolution: u16, rectangle: Rectangle) -> TallyAnswer
    ensures { result ≡ tally_answer (tallied screen.now resolution rectangle) }
{
    tally::tally(screen, resolution, rectangle).into()
}

// Colour.
#[unsafe(no_mangle)]
pub extern "C" fn kutimuq_colour(
    resolution: u16,
    machine: u8,
    palette: Palette,
    register: u8,
) -> ColourAnswer
    ensures { result ≡ colour_answer (shown resolution machine palette.words register) }
{
    let words = palette.words;
    colour::colour(resolution, machine, words, register).into()
}

// A new legend.
#[unsafe(no_mangle)]
pub extern "C" fn kutimuq_new_legend() -> Legend
    ensures { result ≡ new_legend }
{
    legend::new_legend()
}

// A party sets an entry of a legend.
#[unsafe(no_mangle)]
pub extern "C" fn kutimuq_set_entry(
    legend: Legend,
    party: u8,
    register: u8,
    class: u16,
    confidence: u8,
) -> LegendAnswer
    ensures { result ≡ legend_answer legend (setting legend party register class confidence) }
{
    legend::answer(
        legend,
        legend::set_entry(legend, party, register, class, confidence),
    )
}

// A party releases an entry of a legend.
#[unsafe(no_mangle)]
pub extern "C" fn kutimuq_release_entry(legend: Legend, party: u8, register: u8) -> LegendAnswer
    ensures { result ≡ legend_answer legend (releasing legend party register) }
{
    legend::answer(legend, legend::release_entry(legend, party, register))
}

// Pond reading for a party.
#[unsafe(no_mangle)]
pub extern "C" fn kutimuq_pond(
    screen: &[u8],
    resolution: u16,
    rectangle: Rectangle,
    party: u8,
    class: u16,
    floor: u8,
    legend: Legend,
) -> PondAnswer
    ensures { result
        ≡ pond_answer (pond_reading screen.now resolution rectangle party class floor legend) }
{
    pond::read_pond(screen, resolution, rectangle, party, class, floor, legend).into()
}

// Read.
#[unsafe(no_mangle)]
pub extern "C" fn kutimuq_read(kind: u8, file: &[u8], area: &mut [u8]) -> ReadAnswer
    ensures answer { result ≡ read_answer (read_file kind file.now (length area.old)) }
    ensures area { area.new
        ≡ read_area (read_file kind file.now (length area.old)) area.old }
{
    reader::read(kind, file, area).into()
}

// Write.
#[unsafe(no_mangle)]
pub extern "C" fn kutimuq_write(
    form: u8,
    picture: Picture,
    screen: &[u8],
    out: &mut [u8],
) -> WriteAnswer
    ensures answer { result
        ≡ write_answer (write_file form picture screen.now (length out.old)) }
    ensures output { out.new
        ≡ write_output (write_file form picture screen.now (length out.old)) out.old }
{
    writer::write(form, picture, screen, out).into()
}

// Read a MacPaint plate.
#[unsafe(no_mangle)]
pub extern "C" fn kutimuq_read_plate(file: &[u8], plate: &mut [u8]) -> BodyAnswer
    ensures answer { result ≡ unpacked_answer (read_plate file.now (length plate.old)) }
    ensures plate { plate.new
        ≡ body_area (read_plate file.now (length plate.old)) plate.old }
{
    macpaint::read(file, plate).into()
}

// Write a MacPaint plate.
#[unsafe(no_mangle)]
pub extern "C" fn kutimuq_write_plate(plate: &[u8], out: &mut [u8]) -> WriteAnswer
    ensures answer { result ≡ write_answer (write_plate plate.now (length out.old)) }
    ensures output { out.new
        ≡ write_output (write_plate plate.now (length out.old)) out.old }
{
    macpaint::write(plate, out).into()
}

// Read a GEM IMG file of the screen profile.
#[unsafe(no_mangle)]
pub extern "C" fn kutimuq_read_img(file: &[u8], area: &mut [u8]) -> ImgAnswer
    ensures answer { result ≡ img_answer (read_img file.now (length area.old)) }
    ensures area { area.new
        ≡ img_area (read_img file.now (length area.old)) area.old }
{
    gem_img::read(file, area).into()
}

// Plain DEGAS to DEGAS Elite.
#[unsafe(no_mangle)]
pub extern "C" fn kutimuq_to_elite(file: &[u8], out: &mut [u8]) -> WriteAnswer
    ensures answer { result ≡ write_answer (convert ToElite file.now (length out.old)) }
    ensures output { out.new
        ≡ write_output (convert ToElite file.now (length out.old)) out.old }
{
    conversion::convert(Conversion::ToElite, file, out).into()
}

// DEGAS Elite to plain DEGAS.
#[unsafe(no_mangle)]
pub extern "C" fn kutimuq_to_plain(file: &[u8], out: &mut [u8]) -> WriteAnswer
    ensures answer { result ≡ write_answer (convert ToPlain file.now (length out.old)) }
    ensures output { out.new
        ≡ write_output (convert ToPlain file.now (length out.old)) out.old }
{
    conversion::convert(Conversion::ToPlain, file, out).into()
}

// The records of a packed DEGAS file opened.
#[unsafe(no_mangle)]
pub extern "C" fn kutimuq_open_records(file: &[u8]) -> CursorAnswer
    ensures { result ≡ cursor_answer (packed_opening file.now) }
{
    degas_records::open_records(file).into()
}

// The record at a cursor, or done, or the refusal; and the next cursor.
#[unsafe(no_mangle)]
pub extern "C" fn kutimuq_next_record(file: &[u8], cursor: RecordCursor) -> RecordAnswer
    ensures { result ≡ record_answer (stepped file.now cursor) }
{
    degas_records::next_record(file, cursor).into()
}

// The colour animation of a NEOchrome file, by one of two lists of formats.
#[unsafe(no_mangle)]
pub extern "C" fn kutimuq_animation(list: u8, file: &[u8]) -> AnimationAnswer
    ensures { result ≡ animation_answer (animation list file.now) }
{
    neochrome_animation::animation(list, file).into()
}

// Read a Spectrum 512 file, SPU or SPC.
#[unsafe(no_mangle)]
pub extern "C" fn kutimuq_read_spectrum(
    kind: u8,
    file: &[u8],
    screen: &mut [u8],
    palettes: &mut [u16],
) -> Refusal
    ensures answer { result ≡ refusal_of
        (read_spectrum kind file.now (length screen.old) (length palettes.old)) }
    ensures screen { screen.new ≡ screen_area
        (read_spectrum kind file.now (length screen.old) (length palettes.old))
        screen.old }
    ensures palettes { palettes.new ≡ palette_area
        (read_spectrum kind file.now (length screen.old) (length palettes.old))
        palettes.old }
{
    spectrum::read(kind, file, screen, palettes).into()
}

// The palette position at a column for a register of a Spectrum 512 picture.
#[unsafe(no_mangle)]
pub extern "C" fn kutimuq_spectrum_position(column: usize, register: u8) -> PositionAnswer
    ensures { result ≡ position_answer (judge_position column register) }
{
    spectrum_positions::position(column, register).into()
}

// The colour word of a pixel of a Spectrum 512 picture.
#[unsafe(no_mangle)]
pub extern "C" fn kutimuq_spectrum_word(
    screen: &[u8],
    palettes: &[u16],
    column: usize,
    line: usize,
) -> ColourWordAnswer
    ensures { result ≡ word_answer (pixel_word screen.now palettes.now column line) }
{
    spectrum_colours::pixel_word(screen, palettes, column, line).into()
}

// The colour words of a scan line of a Spectrum 512 picture.
#[unsafe(no_mangle)]
pub extern "C" fn kutimuq_spectrum_line(
    screen: &[u8],
    palettes: &[u16],
    line: usize,
    out: &mut [u16],
) -> Refusal
    ensures answer { result ≡ refusal_of (line_of_words screen.now palettes.now line
        (length out.old)) }
    ensures output { out.new ≡ later (line_of_words screen.now palettes.now line
        (length out.old)) (λ words. over words out.old) out.old }
{
    spectrum_colours::line_words(screen, palettes, line, out).into()
}
