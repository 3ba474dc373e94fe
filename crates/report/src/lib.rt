// The summary of a DEGAS file as text. Definitions: specs/.
#![tactic(auto)]

ghost use Rattle.std.specs.Prelude.{◌≡◌, cond, ◌++◌, ◌≤◌, length, IfOk};
ghost use Rattle.io.specs.Counts.{IsPrefixLen};
ghost use Rattle.lists.specs.Written.{Written};
ghost use Rattle.outcome.specs.Outcome.{map};
ghost use Rattle.resolution.specs.Choice.{chosen};
ghost use Rattle.resolution.specs.Shapes.{screen_bytes};
ghost use Rattle.tally.specs.Counts.{counts};
ghost use Rattle.report.specs.Lines.{number_lines, tally_line};
ghost use Rattle.report.specs.Summary.{summary_bytes, whole_screen, screen_counts, summary};
ghost use Rattle.report.specs.Summary.{summarised, summary_output};

use outcome::{Reason, Refusal};
use picture::PictureRead;
use reader::Kind;
use resolution::{Resolution, SCREEN_BYTES};
use tally::Rectangle;

mod text;

// The bytes that a summary is lent, at least.
pub const SUMMARY_BYTES: usize = 512;

// The first bytes of a file that decide its summary: one more than the longest file has.
pub const DECIDING_BYTES: usize = 32067;

// Writes the summary of a file, read as DEGAS, over the front of an output. Answers the text's length.
#[tactic(auto, unfolding(crate::specs::Summary::summarised))]
pub fn summarise(file: &[u8], out: &mut [u8]) -> Result<usize, Refusal>
    ensures answer { result ≡ map length (summarised file.now (length out.old)) }
    ensures text { out.new
        ≡ summary_output (summarised file.now (length out.old)) out.old }
    ensures within { IfOk result (λ n. IsPrefixLen n out.new) }
{
    if out.len() < SUMMARY_BYTES {
        return Err(Reason::AreaTooShort.refuse());
    }
    Ok(put_summary(file, out))
}

// The summary. Answers its length, as each function here does that writes.
fn put_summary(file: &[u8], out: &mut [u8]) -> usize
    requires { summary_bytes ≤ length out.old }
    ensures part { Written (summary file.now) out.old out.new result }
    ensures size { result ≤ summary_bytes }
{
    let mut screen = [0u8; SCREEN_BYTES];
    match reader::read(Kind::Degas as u8, file, &mut screen) {
        Ok(read) => put_reading(read, &screen, out),
        Err(refusal) => text::put_refusal(refusal, out),
    }
}

// The five lines of a reading.
fn put_reading(read: PictureRead, screen: &[u8], out: &mut [u8]) -> usize
    requires whole { screen_bytes ≤ length screen.now }
    requires room { summary_bytes ≤ length out.old }
    ensures part { Written (number_lines read.picture.resolution read.records read.body
        (cond read.picture.tail_present 1 0)
        ++ tally_line (screen_counts screen.now (chosen read.picture.resolution)))
        out.old out.new result }
    ensures size { result ≤ summary_bytes }
{
    let counts = screen_counts(screen, read.picture.resolution);
    let end = text::put_numbers(read, out);
    end + text::put_tally(counts, &mut out[end..])
}

// The tally of the whole screen at the resolution that a number names.
fn screen_counts(screen: &[u8], resolution: u16) -> [u32; 16]
    requires { screen_bytes ≤ length screen.now }
    ensures { result ≡ screen_counts screen.now (chosen resolution) }
{
    match Resolution::try_from(resolution) {
        Ok(r) => whole_counts(screen, r),
        Err(_) => [0u32; 16],
    }
}

// The same at resolution r.
fn whole_counts(screen: &[u8], r: Resolution) -> [u32; 16]
    requires { screen_bytes ≤ length screen.now }
    ensures { result ≡ counts screen.now r (whole_screen r) }
{
    let rectangle = Rectangle {
        left: 0,
        top: 0,
        columns: r.width(),
        lines: r.height(),
    };
    tally::tally(screen, r.number(), rectangle).unwrap()
}
