// One row of 1 to 128 bytes packed to its least body, from the left: runs of three or more that are near one by one,
// and what is between others by a mask of equal neighbours. Definitions, of rows end to end as well: specs/.
#![tactic(auto)]

ghost use Rattle.std.specs.Prelude.{◌≡◌, true, [], ◌∷◌, ◌+◌, ◌-◌, ◌^◌, ◌≤◌, ◌<◌, length, drop, ltb};
ghost use Rattle.lists.specs.Over.{over};
ghost use Rattle.outcome.specs.Outcome.{map};
ghost use Rattle.packbits.specs.Row.{row_packed, row_output};
ghost use Rattle.pack.specs.declared.Near.TheVariants.{Run, Single};
ghost use Rattle.pack.specs.Controls.{record_of, taken_by, shown_by};
ghost use Rattle.pack.specs.Emitted.{Emitted};
ghost use Rattle.pack.specs.Least.{least, least_records};
ghost use Rattle.pack.specs.Lengths.{count_run};
ghost use Rattle.pack.specs.Masks.{same_as, equal_next, last_single, MaskAt};
ghost use Rattle.pack.specs.Pack.{pack_row, pack_into, least_len};
ghost use Rattle.pack.specs.Runs.{run_length, end_of, little_endian, FirstOther};
ghost use Rattle.pack.specs.ShortRuns.{ahead_at, control_at, LongRun, Known, FourSingles};

use outcome::{Reason, Refusal};
use packbits::{MAX_WIDTH, Packed};

// The longest body that packing makes of a row.
pub const MAX_BODY: usize = 129;

// Bytes compared at once, and bits of a byte.
const WORD: usize = 8;

const BYTE_BITS: usize = 8;

// Bits of a word, and the most bytes whose equal neighbours one word tells.
const WORD_BITS: usize = 64;

const MASK_BYTES: usize = 63;

// Eight bytes as one number, the first one lowest. The compiler makes it one load.
fn word(a: u8, b: u8, c: u8, d: u8, e: u8, f: u8, g: u8, h: u8) -> u64
    ensures { result ≡ little_endian (a ∷ b ∷ c ∷ d ∷ e ∷ f ∷ g ∷ h ∷ []) }
{
    let behind = ((h as u64 * 256 + g as u64) * 256 + f as u64) * 256 + e as u64;
    (((behind * 256 + d as u64) * 256 + c as u64) * 256 + b as u64) * 256 + a as u64
}

// What differs between eight bytes and eight bytes x.
fn differing(x: u8, a: u8, b: u8, c: u8, d: u8, e: u8, f: u8, g: u8, h: u8) -> u64
    ensures { FirstOther x (a ∷ b ∷ c ∷ d ∷ e ∷ f ∷ g ∷ h ∷ []) result }
{
    word(a, b, c, d, e, f, g, h) ^ word(x, x, x, x, x, x, x, x)
}

// Where the bytes x from a place on end, byte by byte.
fn end_by_bytes(row: &[u8], x: u8, from: usize) -> usize
    requires { from ≤ length row.now }
    ensures { result ≡ end_of x row.now from }
{
    for n in from..row.len() {
        if row[n] != x {
            return n;
        }
    }
    row.len()
}

// The same, eight bytes at a time where there are so many.
fn end_by_words(row: &[u8], x: u8, from: usize) -> usize
    requires { (from ≤ length row.now) × (length row.now ≤ 128) }
    ensures { result ≡ end_of x row.now from }
{
    let mut n = from;
    // By while: the step is eight bytes, as long as so many are left.
    while n + WORD <= row.len() {
        let d = differing(
            x,
            row[n],
            row[n + 1],
            row[n + 2],
            row[n + 3],
            row[n + 4],
            row[n + 5],
            row[n + 6],
            row[n + 7],
        );
        if d != 0 {
            return n + u64::trailing_zeros(d) as usize / BYTE_BITS;
        }
        n += WORD;
    }
    end_by_bytes(row, x, n)
}

// The length of the run of equal bytes at the place at. Its first three bytes are compared one by one, so that a run of
// one or two bytes needs no word.
fn run_at(row: &[u8], at: usize) -> usize
    requires { (at < length row.now) × (length row.now ≤ 128) }
    ensures { result ≡ run_length (drop at row.now) }
{
    let x = row[at];
    if row.len() <= at + 2 {
        return end_by_bytes(row, x, at + 1) - at;
    }
    if row[at + 1] != x {
        return 1;
    }
    if row[at + 2] != x {
        return 2;
    }
    end_by_words(row, x, at + 3) - at
}

// Packed bytes counted, and whether a literal is under way.
#[derive(Clone, Copy)]
struct Count {
    len: usize,
    literal: bool,
}

// After a run of n bytes.
fn count_run(c: Count, n: usize) -> Count
    requires { c.len < 1000 }
    ensures { result ≡ count_run n c }
{
    let len = if n == 1 && c.literal {
        c.len + 1
    } else {
        c.len + 2
    };
    let literal = n == 1 || n == 2 && c.literal;
    Count { len, literal }
}

// The length of the least body of a row that is not too wide.
fn body_len(row: &[u8]) -> usize
    requires { length row.now ≤ 128 }
    ensures { result ≡ length (least row.now) }
{
    let mut c = Count {
        len: 0,
        literal: false,
    };
    let mut at = 0;
    // By while: the step is a run.
    while at < row.len() {
        let n = run_at(row, at);
        c = count_run(c, n);
        at += n;
    }
    c.len
}

// The length of the row's least body; 0 of a row wider than 128.
pub fn least_len(row: &[u8]) -> usize
    ensures { result ≡ least_len row.now }
{
    if MAX_WIDTH < row.len() {
        return 0;
    }
    body_len(row)
}

// The short runs, of one or two bytes each, from a place on: where the literal of them ends, where they end, and the
// length of the run there: 0 at the end of the row, where no byte is left.
#[derive(Clone, Copy)]
struct Ahead {
    single: usize,
    end: usize,
    count: usize,
}

// Whether the byte at a place and the three after it differ each from the next.
fn four_singles(row: &[u8], at: usize) -> bool
    requires { (at < length row.now) × (length row.now ≤ 128) }
    ensures { result ≡ true → FourSingles row.now at }
{
    at + 4 < row.len()
        && row[at] != row[at + 1]
        && row[at + 1] != row[at + 2]
        && row[at + 2] != row[at + 3]
        && row[at + 3] != row[at + 4]
}

// The short runs from the place i on, run by run, but four single bytes at a time.
fn short_runs(row: &[u8], i: usize) -> Ahead
    requires { (i ≤ length row.now) × (length row.now ≤ 128) }
    ensures value { result ≡ ahead_at row.now i }
    ensures value_2 { (result ≡ ahead_at row.now result.single) × (result.single ≤ result.end)
        × (result.end ≤ length row.now) }
    ensures long_run { (result.count ≡ 0 → ⊥) → LongRun row.now result }
{
    let mut single = i;
    let mut at = i;
    // By while: the step is four bytes or a run.
    while at < row.len() {
        if four_singles(row, at) {
            at += 4;
            single = at;
            continue;
        }
        let n = run_at(row, at);
        if 2 < n {
            return Ahead {
                single,
                end: at,
                count: n,
            };
        }
        at += n;
        if n == 1 {
            single = at;
        }
    }
    Ahead {
        single,
        end: at,
        count: 0,
    }
}

// Which bytes from a place on equal the byte after them, as binary digits, the first one lowest.
fn equal_next(row: &[u8], from: usize) -> u64
    requires { (from < length row.now) × (length row.now ≤ from + 63) }
    ensures { result ≡ equal_next (drop from row.now) }
{
    let mut equal = 0;
    for at in (from..row.len() - 1).rev() {
        equal = equal * 2 + u64::from(row[at] == row[at + 1]);
    }
    equal
}

// The same, and 0 where too many bytes are left for a word.
fn mask_at(row: &[u8], i: usize) -> u64
    requires { i ≤ length row.now }
    ensures { MaskAt row.now i result }
{
    let left = row.len() - i;
    if MASK_BYTES < left {
        return 0;
    }
    if left == 0 {
        return 0;
    }
    equal_next(row, i)
}

// The mask at a later place.
fn next_mask(row: &[u8], i: usize, equal: u64, next: usize) -> u64
    requires { (i ≤ next) × (next ≤ length row.now) × MaskAt row.now i equal }
    ensures { MaskAt row.now next result }
{
    if MASK_BYTES < row.len() - i {
        return mask_at(row, next);
    }
    equal >> (next - i)
}

// Where the last byte without an equal neighbour ends, of the first n bytes that a mask tells; 0 where there is none.
fn last_single(equal: u64, n: usize) -> usize
    requires { (equal < 2 ^ 63) × (n ≤ 63) }
    ensures { result ≡ last_single equal n }
{
    let paired = equal | (equal * 2);
    let low = (1 << n) - 1;
    WORD_BITS - u64::leading_zeros(low - (paired & low)) as usize
}

// The short runs from the place i on, by the mask there. No branch depends on the length of a run, which a processor
// guesses wrong where short runs follow one another at random.
fn masked_runs(row: &[u8], i: usize, equal: u64) -> Ahead
    requires { (i < length row.now) × (length row.now ≤ i + 63) × (equal ≡ equal_next (drop i row.now)) }
    ensures { result ≡ ahead_at row.now i }
{
    let triples = equal & (equal / 2);
    if triples == 0 {
        let left = row.len() - i;
        return Ahead {
            single: i + last_single(equal, left),
            end: row.len(),
            count: 0,
        };
    }
    let short = u64::trailing_zeros(triples) as usize;
    Ahead {
        single: i + last_single(equal, short),
        end: i + short,
        count: u64::trailing_zeros((equal >> short) + 1) as usize + 1,
    }
}

// The short runs from the place i on, by the mask there or, where too many bytes are left for one, run by run.
fn runs_ahead(row: &[u8], i: usize, equal: u64) -> Ahead
    requires { (i < length row.now) × (length row.now ≤ 128) × MaskAt row.now i equal }
    ensures { Known row.now i result }
{
    if MASK_BYTES < row.len() - i {
        return short_runs(row, i);
    }
    masked_runs(row, i, equal)
}

// A literal's bytes to the front of out. A single byte is stored, which costs less than a copy.
fn put_literal(shown: &[u8], out: &mut [u8])
    requires { length shown.now ≤ length out.old }
    ensures { out.new ≡ over shown.now out.old }
{
    if shown.len() == 1 {
        out[0] = shown[0];
    } else {
        byte_copy::copy(shown, out);
    }
}

// The literal of the first n bytes of the row to the front of out, and how many bytes that is.
fn put_bytes(n: usize, row: &[u8], out: &mut [u8]) -> usize
    requires { (1 ≤ n) × (n ≤ 128) × (n ≤ length row.now) × (n < length out.old) }
    ensures made { result ≡ n + 1 }
    ensures out_after { out.new ≡ over (record_of (n - 1) row.now) out.old }
{
    out[0] = (n - 1) as u8;
    put_literal(&row[..n], &mut out[1..]);
    n + 1
}

// The repeat of the first n bytes of the row, which are equal, to the front of out, and how many bytes that is.
fn put_repeat(n: usize, row: &[u8], out: &mut [u8]) -> usize
    requires { (2 ≤ n) × (n ≤ 128) × (1 ≤ length row.now) × (2 ≤ length out.old) }
    ensures made { result ≡ 2 }
    ensures out_after { out.new ≡ over (record_of (257 - n) row.now) out.old }
{
    out[0] = (257 - n) as u8;
    out[1] = row[0];
    2
}

// One record: the bytes of the row that it stands for, and the bytes that it is.
#[derive(Clone, Copy)]
struct Put {
    taken: usize,
    made: usize,
}

// The record at the place i, before the end of the short runs s: of the literal or of a pair. The row from there on and
// the front of out are lent.
fn put_next(i: usize, s: Ahead, row: &[u8], out: &mut [u8]) -> Put
    requires single_bound { (s.single ≤ 128) × (1 ≤ length row.now) }
    requires s_in_bounds { (shown_by (control_at i s) ≤ length row.now) × (shown_by (control_at i s) < length out.old) }
    ensures taken_value { (result.taken ≡ taken_by (control_at i s))
        × (result.made ≡ length (record_of (control_at i s) row.now)) }
    ensures out_after { out.new ≡ over (record_of (control_at i s) row.now) out.old }
{
    if i < s.single {
        let taken = s.single - i;
        let made = put_bytes(taken, row, out);
        return Put { taken, made };
    }
    let made = put_repeat(2, row, out);
    Put { taken: 2, made }
}

// The records of the short runs s from the place i on, to the front of out.
fn put_short(row: &[u8], i: usize, s: Ahead, out: &mut [u8]) -> Packed
    requires row_len_bound { (length row.now ≤ 128) × (i ≤ s.end) × Known row.now i s }
    requires row_in_bounds { length (least (drop i row.now)) ≤ length out.old }
    ensures { Emitted row.now i s.end out.old out.new result.bytes
        result.records }
{
    let mut at = i;
    let mut o = 0;
    let mut n = 0;
    // By while: the step is what a record packs.
    while at < s.end {
        let p = put_next(at, s, &row[at..], &mut out[o..]);
        at += p.taken;
        o += p.made;
        n += 1;
    }
    Packed {
        bytes: o,
        records: n,
    }
}

// The same. Most often there is one byte, which is put without a loop.
fn put_before(row: &[u8], i: usize, s: Ahead, out: &mut [u8]) -> Packed
    requires row_len_bound { (length row.now ≤ 128) × (i ≤ s.end) × Known row.now i s }
    requires row_in_bounds { length (least (drop i row.now)) ≤ length out.old }
    ensures { Emitted row.now i s.end out.old out.new result.bytes
        result.records }
{
    if s.end == i + 1 {
        let bytes = put_bytes(1, &row[i..], out);
        return Packed { bytes, records: 1 };
    }
    put_short(row, i, s, out)
}

// The records of the short runs s from the place i on and of the run after them, to the front of out.
fn put_runs(row: &[u8], i: usize, s: Ahead, out: &mut [u8]) -> Packed
    requires row_len_bound { (length row.now ≤ 128) × (i ≤ s.end) × Known row.now i s }
    requires row_in_bounds { length (least (drop i row.now)) ≤ length out.old }
    ensures { Emitted row.now i (s.end + s.count) out.old out.new result.bytes
        result.records }
{
    let p = put_before(row, i, s, out);
    if s.count == 0 {
        return p;
    }
    let end = s.end;
    let bytes = p.bytes;
    let made = put_repeat(s.count, &row[end..], &mut out[bytes..]);
    Packed {
        bytes: bytes + made,
        records: p.records + 1,
    }
}

// What is at a place: a run of three or more, one single byte before such a run, or neither.
enum Near {
    Run,
    Single,
    Neither,
}

// What the first four bytes tell of it.
fn what_is_near(a: u8, b: u8, c: u8, d: u8) -> Near
    ensures run { result ≡ Run → (a ≡ b) × (b ≡ c) }
    ensures single { result ≡ Single → (a ≡ b → ⊥) × (b ≡ c) × (c ≡ d) }
{
    if b != c {
        return Near::Neither;
    }
    if a == b {
        return Near::Run;
    }
    if c != d {
        return Near::Neither;
    }
    Near::Single
}

// Records from the left: the place of the row that they reach, their bytes and their number.
#[derive(Clone, Copy)]
struct Part {
    place: usize,
    bytes: usize,
    records: usize,
}

// The record of the last byte or of the last two bytes, from the place i on, to the front of out; of three nothing.
fn put_last(row: &[u8], i: usize, out: &mut [u8]) -> Part
    requires i_in_bounds { (i < length row.now) × (length row.now ≤ 128) }
    requires row_in_bounds { length (least (drop i row.now)) ≤ length out.old }
    ensures { Emitted row.now i result.place out.old out.new result.bytes
        result.records }
{
    let left = row.len() - i;
    if 2 < left {
        return Part {
            place: i,
            bytes: 0,
            records: 0,
        };
    }
    if end_by_bytes(row, row[i], i + 1) == i + 2 {
        let bytes = put_repeat(2, &row[i..], out);
        return Part {
            place: i + 2,
            bytes,
            records: 1,
        };
    }
    let bytes = put_bytes(left, &row[i..], out);
    Part {
        place: i + left,
        bytes,
        records: 1,
    }
}

// The record at the place i to the front of out, where a run of three or more is there or after one single byte, or
// the row's end is near; otherwise nothing.
fn put_near(row: &[u8], i: usize, out: &mut [u8]) -> Part
    requires i_in_bounds { (i < length row.now) × (length row.now ≤ 128) }
    requires row_in_bounds { length (least (drop i row.now)) ≤ length out.old }
    ensures { Emitted row.now i result.place out.old out.new result.bytes
        result.records }
{
    if row.len() <= i + 3 {
        return put_last(row, i, out);
    }
    match what_is_near(row[i], row[i + 1], row[i + 2], row[i + 3]) {
        Near::Run => {
            let n = end_by_words(row, row[i], i + 3) - i;
            let bytes = put_repeat(n, &row[i..], out);
            Part {
                place: i + n,
                bytes,
                records: 1,
            }
        }
        Near::Single => {
            let bytes = put_bytes(1, &row[i..], out);
            Part {
                place: i + 1,
                bytes,
                records: 1,
            }
        }
        Near::Neither => Part {
            place: i,
            bytes: 0,
            records: 0,
        },
    }
}

// The first records of the row's least body to the front of out, as long as runs of three or more or the row's end are
// near. Most rows of even areas are such records alone.
fn emit_near(row: &[u8], out: &mut [u8]) -> Part
    requires row_len_bound { length row.now ≤ 128 }
    requires row_in_bounds { length (least row.now) ≤ length out.old }
    ensures { Emitted row.now 0 result.place out.old out.new result.bytes
        result.records }
{
    let mut i = 0;
    let mut o = 0;
    let mut n = 0;
    // By while: the step is what the next records pack.
    while i < row.len() {
        let p = put_near(row, i, &mut out[o..]);
        let place = p.place;
        o += p.bytes;
        n += p.records;
        if place == i {
            return Part {
                place,
                bytes: o,
                records: n,
            };
        }
        i = place;
    }
    Part {
        place: i,
        bytes: o,
        records: n,
    }
}

// The least body of the row from a place on, to the front of out.
fn emit_rest(row: &[u8], from: usize, out: &mut [u8]) -> Packed
    requires row_len_bound { (length row.now ≤ 128) × (from ≤ length row.now) }
    requires row_in_bounds { length (least (drop from row.now)) ≤ length out.old }
    ensures { Emitted row.now from (length row.now) out.old out.new
        result.bytes result.records }
{
    let mut equal = mask_at(row, from);
    let mut i = from;
    let mut o = 0;
    let mut n = 0;
    // By while: the step is the short runs and the run behind them.
    while i < row.len() {
        let s = runs_ahead(row, i, equal);
        let p = put_runs(row, i, s, &mut out[o..]);
        let next = s.end + s.count;
        equal = next_mask(row, i, equal, next);
        i = next;
        o += p.bytes;
        n += p.records;
    }
    Packed {
        bytes: o,
        records: n,
    }
}

// The least body of the row to the front of out.
fn emit(row: &[u8], out: &mut [u8]) -> Packed
    requires row_len_bound { length row.now ≤ 128 }
    requires row_in_bounds { length (least row.now) ≤ length out.old }
    ensures bytes_value { (result.bytes ≡ length (least row.now)) × (result.records ≡ least_records row.now) }
    ensures out_after { out.new ≡ over (least row.now) out.old }
{
    let near = emit_near(row, out);
    let bytes = near.bytes;
    let rest = emit_rest(row, near.place, &mut out[bytes..]);
    Packed {
        bytes: bytes + rest.bytes,
        records: near.records + rest.records,
    }
}

// Whether the least body has more bytes than an output. It is not counted where the output is longer than the row.
fn exceeds(row: &[u8], room: usize) -> bool
    requires { length row.now ≤ 128 }
    ensures { result ≡ ltb room (length (least row.now)) }
{
    if row.len() < room {
        return false;
    }
    room < body_len(row)
}

// Packs the row to the front of out, which need have no more bytes than are written.
#[tactic(auto, unfolding(crate::specs::Pack::pack_within))]
pub fn pack_into(row: &[u8], out: &mut [u8]) -> Result<Packed, Refusal>
    ensures value { result ≡ map row_packed (pack_into row.now (length out.old)) }
    ensures out_after { out.new
        ≡ row_output (pack_into row.now (length out.old)) out.old }
{
    if packbits::width_out_of_range(row.len()) {
        return Err(Reason::OutOfRange.refuse());
    }
    if exceeds(row, out.len()) {
        return Err(Reason::AreaTooShort.refuse());
    }
    Ok(emit(row, out))
}

// Packs the row to the front of out. An output below 129 bytes is refused with 1.
#[tactic(auto, unfolding(crate::specs::Pack::pack_within))]
pub fn pack_row(row: &[u8], out: &mut [u8]) -> Result<Packed, Refusal>
    ensures value { result ≡ map row_packed (pack_row row.now (length out.old)) }
    ensures out_after { out.new
        ≡ row_output (pack_row row.now (length out.old)) out.old }
{
    if packbits::width_out_of_range(row.len()) {
        return Err(Reason::OutOfRange.refuse());
    }
    if out.len() < MAX_BODY {
        return Err(Reason::AreaTooShort.refuse());
    }
    pack_into(row, out)
}
