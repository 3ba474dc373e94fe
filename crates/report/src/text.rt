// Lines of text, written to the front of an output. Each function answers the length of what it writes. They are put by
// hand: that a `write!` of std succeeds, as `Written` says of every line, no contract of std's says.
ghost use Rattle.std.specs.Prelude.{◌≤◌, cond, length};
ghost use Rattle.lists.specs.Written.{Written};
ghost use Rattle.report.specs.Labels.{blank};
ghost use Rattle.report.specs.Lines.{item, line, items, tally_line, refusal_line, number_lines};
ghost use Rattle.report.specs.Lines.{max_item, max_line, max_items, max_tally_line, max_refusal_line, max_number_lines};

use outcome::Refusal;
use picture::PictureRead;

// A label and a number.
// By hand, as the head of the file says.
fn put_item(label: &[u8], n: usize, out: &mut [u8]) -> usize
    requires { max_item label.now ≤ length out.old }
    ensures part { Written (item label.now n) out.old out.new result }
    ensures size { result ≤ max_item label.now }
{
    let mut digits = itoa::Buffer::new();
    let end = byte_copy::copy(label, out);
    end + byte_copy::copy(digits.format(n).as_bytes(), &mut out[end..])
}

// A label and a number, as a line.
fn put_line(label: &[u8], n: usize, out: &mut [u8]) -> usize
    requires { max_line label.now ≤ length out.old }
    ensures part { Written (line label.now n) out.old out.new result }
    ensures size { result ≤ max_line label.now }
{
    let end = put_item(label, n, out);
    end + byte_copy::copy(b"\n", &mut out[end..])
}

// The counts of 16 registers, each after a blank.
fn put_counts(counts: [u32; 16], out: &mut [u8]) -> usize
    requires { max_items ≤ length out.old }
    ensures part { Written (items counts) out.old out.new result }
    ensures size { result ≤ max_items }
{
    let mut end = 0;
    for n in counts {
        end += put_item(b" ", n as usize, &mut out[end..]);
    }
    end
}

// The same, as the tally's line.
pub(crate) fn put_tally(counts: [u32; 16], out: &mut [u8]) -> usize
    requires { max_tally_line ≤ length out.old }
    ensures part { Written (tally_line counts) out.old out.new result }
    ensures size { result ≤ max_tally_line }
{
    let mut end = byte_copy::copy(b"tally", out);
    end += put_counts(counts, &mut out[end..]);
    end + byte_copy::copy(b"\n", &mut out[end..])
}

// The line of a refusal.
pub(crate) fn put_refusal(refusal: Refusal, out: &mut [u8]) -> usize
    requires { max_refusal_line ≤ length out.old }
    ensures part { Written (refusal_line refusal) out.old out.new result }
    ensures size { result ≤ max_refusal_line }
{
    let end = put_item(b"refused ", refusal.number as usize, out);
    end + put_line(b" at ", refusal.place, &mut out[end..])
}

// The four lines of a reading's numbers: the tail is 1 where present, else 0.
// By hand, as the head of the file says.
pub(crate) fn put_numbers(read: PictureRead, out: &mut [u8]) -> usize
    requires { max_number_lines ≤ length out.old }
    ensures part { Written (number_lines read.picture.resolution read.records read.body
        (cond read.picture.tail_present 1 0)) out.old out.new result }
    ensures size { result ≤ max_number_lines }
{
    let picture = read.picture;
    let mut end = put_line(b"resolution ", picture.resolution as usize, out);
    end += put_line(b"records ", read.records, &mut out[end..]);
    end += put_line(b"body ", read.body, &mut out[end..]);
    end + put_line(b"tail ", picture.tail_present as usize, &mut out[end..])
}
