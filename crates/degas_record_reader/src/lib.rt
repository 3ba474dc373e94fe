// A record reader that stays open on the bytes of a packed DEGAS file. Definitions: specs/.
#![tactic(auto)]

ghost use Rattle.std.specs.Prelude.{◌≡◌};
ghost use Rattle.std.specs.Result.{result_transpose};
ghost use Rattle.degas_records.specs.Opening.{packed_opening};
ghost use Rattle.degas_records.specs.Answers.{cursor_answer};
ghost use Rattle.degas_record_reader.specs.Reader.{step_of, after_step};

use degas_records::{ListedRecord, RecordCursor};
use outcome::Refusal;

// A record reader that stays open on the caller's file bytes: the file, and the cursor of its next step.
#[derive(Drop)]
pub struct RecordReader<'a> {
    pub file: &'a [u8],
    pub cursor: RecordCursor,
}

// A record reader before the first record of a file. The opening is judged; its refusal is what each step gives.
pub fn open_reader<'a>(file: &'a [u8]) -> RecordReader<'a>
    ensures { (result.file ≡ file.entry)
        × (result.cursor ≡ (cursor_answer (packed_opening file.now)).cursor) }
{
    let cursor = degas_records::open_records(file).unwrap_or(RecordCursor {
        offset: 0,
        plane_row: 0,
        good_bytes: 0,
    });
    RecordReader { file, cursor }
}

// The records in file order, and then, for ever, none or the refusal.
impl<'a> Iterator for RecordReader<'a> {
    type Item = Result<ListedRecord, Refusal>;

    ghost next_gives = { λ reader item after.
        (item ≡ result_transpose (step_of reader).found)
        × (after ≡ after_step reader) };

    fn next(&mut self) -> Option<Result<ListedRecord, Refusal>> {
        let step = degas_records::next_record(self.file, self.cursor);
        self.cursor = step.next;
        step.found.transpose()
    }
}
