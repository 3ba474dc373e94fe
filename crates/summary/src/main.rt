// Reads a DEGAS file on standard input and writes its summary. A file longer than the buffer is longer than any
// picture, and its first bytes decide what the summary says (report/proofs/Long.antt, `summary-first`).
#![tactic(auto)]

ghost use Rattle.std.specs.Prelude.{◌≤◌, ◌<◌, length, take, OnOk, IfOk, IfSome};
ghost use Rattle.std.specs.Io.{ReadsAtMost};
ghost use Rattle.std.specs.Io.KnownBytes.{Consumes, IsAtEnd, Appends};
ghost use Rattle.report.specs.Summary.{deciding_bytes, summary};

use report::{DECIDING_BYTES, SUMMARY_BYTES};
use std::io;
use std::io::{Read, Write};

// Reads until the buffer is full or the input ends. Answers how many bytes of the buffer are the input's.
fn read_front<R: Read>(input: &mut R, buffer: &mut [u8]) -> io::Result<usize>
    ensures within { ReadsAtMost result buffer.new }
    ensures front { IfOk result (λ n. Consumes (R.remaining input.old) (R.remaining input.new)
        (take n buffer.new)) }
    ensures end { IfOk result (λ n. n < length buffer.new → IsAtEnd (R.remaining input.new)) }
{
    let mut count = 0;
    // By while: the step is what one read gives.
    while count < buffer.len() {
        let read = input.read(&mut buffer[count..])?;
        if read == 0 {
            break;
        }
        count += read;
    }
    Ok(count)
}

// Reads the file, or as much of it as the buffer holds, and writes the summary of the whole input.
fn summarise_input<R: Read, W: Write>(
    input: &mut R,
    output: &mut W,
    buffer: &mut [u8],
) -> io::Result<()>
    requires { deciding_bytes ≤ length buffer.old }
    ensures { OnOk result (IfSome (R.remaining input.old)
        (λ file. Appends (W.contents output.old) (W.contents output.new) (summary file))) }
{
    let count = read_front(input, buffer)?;
    let mut text = [0u8; SUMMARY_BYTES];
    let length = report::summarise(&buffer[..count], &mut text).unwrap();
    output.write_all(&text[..length])
}

fn main(rt: HostRuntime) -> io::Result<()> {
    let mut file = [0u8; DECIDING_BYTES];
    summarise_input(&mut rt.reader(), &mut io::writer(&rt), &mut file)
}
