// The parts of a picture as bytes of a file, read and written: the palette, and the tail's four tables of four words.
ghost use Rattle.std.specs.Prelude.{◌≡◌, ◌<◌, ◌≤◌, length};
ghost use Rattle.lists.specs.Over.{over};
ghost use Rattle.words.specs.Word.{word_bytes, words_at, words_bytes};
ghost use Rattle.picture.specs.Tables.{tables_at, held, tables_of, tables_bytes, tail_at, tail_bytes};

use super::Table;

// ---- read

// Sixteen palette words.
pub fn palette_at(file: &[u8], at: u32) -> [u16; 16]
    ensures { result ≡ words_at 16 file.now at }
{
    let start = at as usize;
    let mut palette = [0u16; 16];
    for i in 0..16 {
        palette[i] = words::word_at(file, start + i * 2);
    }
    palette
}

// One table of the tail.
fn table_at(file: &[u8], at: usize) -> [u16; 4]
    requires { at < 4294967328 }
    ensures { result ≡ words_at 4 file.now at }
{
    [
        words::word_at(file, at),
        words::word_at(file, at + 2),
        words::word_at(file, at + 4),
        words::word_at(file, at + 6),
    ]
}

// The tail's four tables of four words.
fn tables_at(file: &[u8], at: u32) -> [[u16; 4]; 4]
    ensures { result ≡ tables_at file.now at }
{
    let start = at as usize;
    let mut tables = [[0u16; 4]; 4];
    for i in 0..4 {
        tables[i] = table_at(file, start + i * 8);
    }
    tables
}

// The tables as a picture holds them.
pub(crate) fn hold(t: [[u16; 4]; 4]) -> [Table; 4]
    ensures { result ≡ held t }
{
    let a = t[0];
    let b = t[1];
    let c = t[2];
    let d = t[3];
    [
        Table { words: a },
        Table { words: b },
        Table { words: c },
        Table { words: d },
    ]
}

// The tail as a picture holds it.
pub fn tail_at(file: &[u8], at: u32) -> [Table; 4]
    ensures { result ≡ tail_at file.now at }
{
    hold(tables_at(file, at))
}

// ---- written

// One table of the tail. It also says what its type says, that the table has four words.
fn put_table(table: [u16; 4], out: &mut [u8])
    requires { 8 ≤ length out.old }
    ensures out_after { out.new ≡ over (words_bytes table) out.old }
    ensures table_len { length (words_bytes table) ≡ 8 }
{
    words::put_words(&table, out);
}

// The tail's four tables of four words.
fn put_tables(tables: [[u16; 4]; 4], out: &mut [u8])
    requires { 32 ≤ length out.old }
    ensures out_after { out.new ≡ over (tables_bytes tables) out.old }
    ensures tables_len { length (tables_bytes tables) ≡ 32 }
{
    for i in 0..4 {
        let table = tables[i];
        put_table(table, &mut out[i * 8..]);
    }
}

// The tables that a picture holds, as words.
fn tables_of(t: [Table; 4]) -> [[u16; 4]; 4]
    ensures { result ≡ tables_of t }
{
    let t0 = t[0];
    let t1 = t[1];
    let t2 = t[2];
    let t3 = t[3];
    let a = t0.words;
    let b = t1.words;
    let c = t2.words;
    let d = t3.words;
    [a, b, c, d]
}

// The bytes of a word, its high byte first.
pub fn word_bytes(word: u16) -> [u8; 2]
    ensures { result ≡ word_bytes word }
{
    [(word / 256) as u8, (word % 256) as u8]
}

// The bytes of a palette.
pub fn palette_bytes(palette: [u16; 16]) -> [u8; 32]
    ensures { result ≡ words_bytes palette }
{
    let mut out = [0u8; 32];
    words::put_words(&palette, &mut out);
    out
}

// The bytes of a tail.
pub fn tail_bytes(tail: [Table; 4]) -> [u8; 32]
    ensures { result ≡ tail_bytes tail }
{
    let tables: [[u16; 4]; 4] = tables_of(tail);
    let mut out = [0u8; 32];
    put_tables(tables, &mut out);
    out
}
