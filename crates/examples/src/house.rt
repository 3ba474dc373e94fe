// The choices that document 01 marks "house", but for the order of planes, which a packed file shows.
use picture::FILE_BYTES;
use resolution::SCREEN_BYTES;
use std::io;
use writer::Form;

// Writes a label and the colour of a register at high resolution, of an ST.
fn show_high(rt: &impl Print, label: &str, register: u8) -> io::Result<()> {
    match colour::colour(2, 1, [0x0123u16; 16], register) {
        Ok(rgb) => println!(rt; "{label}: {} {} {}", rgb.red, rgb.green, rgb.blue),
        Err(refusal) => println!(rt; "{label}: refused, {}", refusal.number),
    }
}

// Writes a word after a blank.
fn show_word(rt: &impl Print, word: u16) -> io::Result<()> {
    print!(rt; " {word}")
}

// Writes the words between a NEOchrome file's palette and its screen: the name, and what follows it.
fn show_middle(rt: &impl Print, file: &[u8]) -> io::Result<()> {
    for i in 18..64 {
        show_word(rt, words::word_at(file, i * 2))?;
    }
    Ok(())
}

// A blank medium screen written as form 4 over an output of ones.
fn neochrome_header(rt: &impl Print) -> io::Result<()> {
    let screen = [0u8; SCREEN_BYTES];
    let mut out = [1u8; FILE_BYTES];
    let picture = picture::without_tail(1, [0x0123u16; 16]);
    print!(rt; "form 4, words from the name on:")?;
    match writer::write(Form::Neochrome.number(), picture, &screen, &mut out) {
        Ok(_) => show_middle(rt, &out)?,
        Err(refusal) => print!(rt; " refused, {}", refusal.number)?,
    }
    println!(rt)
}

// All of them.
pub(crate) fn run(rt: &impl Print) -> io::Result<()> {
    show_high(rt, "high resolution, register 0", 0)?;
    show_high(rt, "high resolution, register 1", 1)?;
    neochrome_header(rt)
}
