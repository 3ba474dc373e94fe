// Big-endian words as bytes of a slice, read and written. Definitions: specs/Word.antt.
#![tactic(auto)]

ghost use Rattle.std.specs.Prelude.{◌≡◌, ◌+◌, ◌*◌, ◌/◌, ◌≤◌, length, get_or, take};
ghost use Rattle.lists.specs.Over.{over};
ghost use Rattle.words.specs.Word.{word_at, words_at, word_bytes, words_bytes};

// The byte at an offset; past the end 0.
pub fn byte_at(s: &[u8], at: usize) -> u8
    ensures { result ≡ get_or s.now at 0 }
{
    s.get(at).copied().unwrap_or(0)
}

// The word at an offset, its high byte first; a byte past the end counts as 0.
#[tactic(auto, using(crate::proofs::Word::word_past), unfolding(crate::specs::Word::word_at))]
pub fn word_at(s: &[u8], at: usize) -> u16
    ensures { result ≡ word_at s.now at }
{
    if at < s.len() {
        word_of(byte_at(s, at), byte_at(s, at + 1))
    } else {
        0
    }
}

// The word of two bytes, the high one first.
pub fn word_of(high: u8, low: u8) -> u16
    ensures { result ≡ high * 256 + low }
{
    (high as u16) * 256 + (low as u16)
}

// The bytes of a word, its high byte first.
#[tactic(auto, unfolding(crate::specs::Word::word_bytes))]
pub fn word_bytes(word: u16) -> [u8; 2]
    ensures { result ≡ word_bytes word }
{
    [(word / 256) as u8, (word % 256) as u8]
}

// Words one after the other, over the front of an output: as many as it has room for.
pub fn put_words(words: &[u16], out: &mut [u8])
    ensures { out.new
        ≡ over (words_bytes (take (length out.old / 2) words.now)) out.old }
{
    let count = (out.len() / 2).min(words.len());
    for i in 0..count {
        out[i * 2..i * 2 + 2].copy_from_slice(&word_bytes(words[i]));
    }
}

// The word of the two bytes at an offset, which are read together.
#[tactic(auto, unfolding(crate::specs::Word::word_at))]
fn word_inside(s: &[u8], at: usize) -> u16
    requires { at + 2 ≤ length s.now }
    ensures { result ≡ word_at s.now at }
{
    let mut pair = [0u8; 2];
    pair.copy_from_slice(&s[at..at + 2]);
    word_of(pair[0], pair[1])
}

// The words that stand one after the other in a slice, over the front of an output: as many as it has room for.
#[tactic(auto, using(crate::proofs::Word::gets), unfolding(crate::specs::Word::words_at))]
pub fn get_words(s: &[u8], out: &mut [u16])
    ensures { out.new
        ≡ over (take (length out.old) (words_at (length s.now / 2) s.now 0))
        out.old }
{
    let count = out.len().min(s.len() / 2);
    for i in 0..count {
        out[i] = word_inside(s, i * 2);
    }
}
