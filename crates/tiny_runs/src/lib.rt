// The runs of a Tiny file: control bytes and data words expanded to words (document 02, ticket 1; source 001, <Tiny>).
// Definitions: specs/.
#![tactic(auto)]

ghost use Rattle.std.specs.Prelude.{◌≡◌, cond, ◌+◌, ◌*◌, ◌/◌, ◌^◌, ◌≤◌, ◌<◌, length, Ok, None};
ghost use Rattle.lists.specs.Over.{over};
ghost use Rattle.lists.specs.Tabulate.{tabulate};
ghost use Rattle.words.specs.Word.{word_at, word_bytes, words_bytes};
ghost use Rattle.tiny_runs.specs.Runs.{standing_of, defined, long_run, run_of, fitted, run_at, source_of};
ghost use Rattle.tiny_runs.specs.Expansion.{expand_section, Counted};

use outcome::Reason;

// The long counts.
const LEAST_COUNT: u16 = 128;

const MOST_COUNT: u16 = 32767;

// A count of control bytes.
#[derive(Clone, Copy)]
pub struct ControlBytes(pub usize);

// A count of data words.
#[derive(Clone, Copy)]
pub struct DataWords(pub usize);

// A run: whether it repeats one data word; the words it makes; and what it takes of each section.
#[derive(Clone, Copy)]
struct Run {
    repeats: bool,
    count: usize,
    controls: ControlBytes,
    datas: DataWords,
}

// How far expanding came: what was used of each section; the runs, and the words they make; and the fault of the run at
// which it ended.
#[derive(Clone, Copy)]
pub struct Expanded {
    pub controls: ControlBytes,
    pub datas: DataWords,
    pub runs: usize,
    pub words: usize,
    pub fault: Option<Reason>,
}

// ---- a run

// A run of `count` words from `controls` control bytes.
fn defined(repeats: bool, count: usize, controls: usize) -> Run
    ensures { standing_of (Ok result) ≡ defined repeats count controls }
{
    Run {
        repeats,
        count,
        controls: ControlBytes(controls),
        datas: DataWords(if repeats { 1 } else { count }),
    }
}

// A long run: its count is the word at the front of the control bytes behind the run's first.
#[tactic(auto, unfolding(crate::specs::Runs::long_run))]
fn long_run(repeats: bool, rest: &[u8]) -> Result<Run, Reason>
    ensures { standing_of result ≡ long_run repeats rest.now }
{
    if rest.len() < 2 {
        return Err(Reason::RunTooLong);
    }
    let count = words::word_at(rest, 0);
    if count < LEAST_COUNT || MOST_COUNT < count {
        return Err(Reason::UndefinedControl);
    }
    Ok(defined(repeats, count as usize, 3))
}

// The run that control byte x begins, before the rest of the control bytes.
#[tactic(auto, unfolding(crate::specs::Runs::run_of))]
fn run_of(x: u8, rest: &[u8]) -> Result<Run, Reason>
    ensures { standing_of result ≡ run_of x rest.now }
{
    match x {
        0 | 1 => long_run(x == 0, rest),
        2..=127 => Ok(defined(true, x as usize, 1)),
        128 => Err(Reason::UndefinedControl),
        129.. => Ok(defined(false, 256 - x as usize, 1)),
    }
}

// A run judged against the data words that are left and the room for words.
fn fitted(run: Run, left: DataWords, room: usize) -> Result<Run, Reason>
    ensures { standing_of result ≡ fitted (standing_of (Ok run)) left.0 room }
{
    if room < run.count || left.0 < run.datas.0 {
        return Err(Reason::RunTooLong);
    }
    Ok(run)
}

// The run at the front of the control bytes, judged against the data words that are left and the room for words.
#[tactic(auto, unfolding(crate::specs::Runs::run_at))]
fn run_at(controls: &[u8], left: DataWords, room: usize) -> Result<Run, Reason>
    ensures { standing_of result ≡ run_at controls.now left.0 room }
{
    match controls {
        [] => Err(Reason::RunTooLong),
        [x, rest @ ..] => fitted(run_of(*x, rest)?, left, room),
    }
}

// ---- the words of a run, as bytes

// The bytes of a word, over the front of an output.
fn put_word(word: u16, out: &mut [u8])
    requires { 2 ≤ length out.old }
    ensures { out.new ≡ over (word_bytes word) out.old }
{
    [out[0], out[1]] = words::word_bytes(word);
}

// A word, `count` times.
fn put_repeat(word: u16, count: usize, out: &mut [u8])
    requires { count * 2 ≤ length out.old }
    ensures { out.new ≡ over (words_bytes (tabulate count (λ i. word))) out.old }
{
    for i in 0..count {
        put_word(word, &mut out[i * 2..]);
    }
}

// `count` words of a section, from word `taken` on. One copy of all bytes costs more where runs are short.
fn put_literal(section: &[u8], taken: usize, count: usize, out: &mut [u8])
    requires { ((taken + count) * 2 ≤ length section.now) × (count * 2 ≤ length out.old) }
    ensures { out.new
        ≡ over (words_bytes (tabulate count (λ i. word_at section.now ((taken + i) * 2))))
        out.old }
{
    for i in 0..count {
        let at = (taken + i) * 2;
        put_word(
            words::word_of(section[at], section[at + 1]),
            &mut out[i * 2..],
        );
    }
}

// The words of a run, which `taken` data words precede.
fn put_run(run: Run, section: &[u8], taken: DataWords, out: &mut [u8])
    requires count_in_bounds { run.count * 2 ≤ length out.old }
    requires count_in_bounds_2 { (taken.0 + cond run.repeats 1 run.count) * 2 ≤ length section.now }
    ensures { out.new
        ≡ over (words_bytes (tabulate run.count
        (λ i. word_at section.now (source_of run.repeats taken.0 i * 2)))) out.old }
{
    let start = taken.0;
    if run.repeats {
        let at = start * 2;
        put_repeat(words::word_of(section[at], section[at + 1]), run.count, out);
        return;
    }
    put_literal(section, start, run.count, out);
}

// ---- the sections expanded

impl Expanded {
    // Nothing is used.
    fn none() -> Expanded
        ensures { result ≡ record {
          controls = record { 0 = 0 };
          datas = record { 0 = 0 };
          runs = 0;
          words = 0;
          fault = None;
        } }
    {
        Expanded {
            controls: ControlBytes(0),
            datas: DataWords(0),
            runs: 0,
            words: 0,
            fault: None,
        }
    }

    // The counts once a run is.
    fn after(self, run: Run) -> Expanded
        requires controls_fit { self.controls.0 + run.controls.0 < 2 ^ 64 }
        requires datas_fit { self.datas.0 + run.datas.0 < 2 ^ 64 }
        requires runs_fit { self.runs + 1 < 2 ^ 64 }
        requires words_fit { self.words + run.count < 2 ^ 64 }
        ensures { result ≡ record {
          controls = record { 0 = self.controls.0 + run.controls.0 };
          datas = record { 0 = self.datas.0 + run.datas.0 };
          runs = self.runs + 1;
          words = self.words + run.count;
          fault = self.fault;
        } }
    {
        Expanded {
            controls: ControlBytes(self.controls.0 + run.controls.0),
            datas: DataWords(self.datas.0 + run.datas.0),
            runs: self.runs + 1,
            words: self.words + run.count,
            ..self
        }
    }
}

// Expands control bytes and the data words that lie whole in a section, with room for as many words as `made` has room
// for, and puts the bytes of the words made one after the other, until no control byte is left or a run is at fault.
pub fn expand(controls: &[u8], section: &[u8], made: &mut [u8]) -> Expanded
    ensures answer { Counted result (expand_section controls.now section.now (length made.old / 2)) }
    ensures made { made.new
        ≡ over (words_bytes
        (expand_section controls.now section.now (length made.old / 2)).made)
        made.old }
{
    let datas = section.len() / 2;
    let most = made.len() / 2;
    let mut done = Expanded::none();
    // By while: the step is a run, of one to three control bytes.
    while done.controls.0 < controls.len() {
        let left = DataWords(datas - done.datas.0);
        match run_at(&controls[done.controls.0..], left, most - done.words) {
            Ok(run) => {
                put_run(run, section, done.datas, &mut made[done.words * 2..]);
                done = done.after(run);
            }
            Err(reason) => {
                return Expanded {
                    fault: Some(reason),
                    ..done
                };
            }
        }
    }
    done
}
