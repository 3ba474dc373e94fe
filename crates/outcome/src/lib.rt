// Refusals: their numbers, and the value that every answer carries. Definitions: specs/.
#![tactic(auto)]

ghost use Rattle.std.specs.Prelude.{◌≡◌};
ghost use Rattle.outcome.specs.Outcome.{none, refusal, row_refusal, refusal_of};
ghost use Rattle.outcome.specs.Refusal.{number_of};

// Why an input is refused: the number of a refusal is the one that stands here.
#[derive(Clone, Copy, Debug, PartialEq, Eq)]
pub enum Reason {
    // A lent area is too short.
    AreaTooShort = 1,
    // The kind of a file to read, the form of a file to write, or the list to read an animation by is unknown; a file to
    // convert to Elite is not plain; a file whose records are asked for is not packed.
    UnknownKind = 2,
    // The file's length is not allowed.
    WrongLength = 3,
    // The flag word of a NEOchrome file is not 0.
    WrongFlag = 4,
    // The resolution is above 2.
    UnknownResolution = 5,
    // The input ends before the screen or the row is full, or before a palette of an SPC file does.
    InputEnds = 6,
    // A record crosses its row's end, or in an SPC file the end of the picture data.
    RecordCrosses = 7,
    // After the packed body there are not exactly the bytes that the format has there: 32 of DEGAS, none of MacPaint or GEM
    // IMG.
    WrongTail = 8,
    // No packed body below the format's limit exists: 32,000 bytes of DEGAS, 51,200 of MacPaint.
    NoPackedBody = 9,
    // A number is out of range.
    OutOfRange = 10,
    // A control byte or a count is not defined.
    UndefinedControl = 11,
    // A count is cut short, or a run goes past the words to make or the data.
    RunTooLong = 12,
    // After the last run of a Tiny file there is data left, or words are missing; bytes are left of a map of an SPC file.
    SizeMismatch = 13,
    // The flag word or the reserved word of an SPC file is wrong.
    WrongHeader = 14,
    // Bit 15 of a palette's vector in an SPC file is set.
    Bit15Set = 15,
    // Bits 2 to 14 of a plain DEGAS file's first word are not all 0.
    IgnoredBitsSet = 17,
    // A DEGAS file's tail is absent or not all zero.
    NoZeroTail = 18,
    // A legend entry to set is another party's, or one to release is free or another party's.
    NotOwned = 19,
    // The version of a MacPaint file is neither 0 nor 2.
    WrongVersion = 20,
    // The header of a GEM IMG file is outside the screen profile.
    OutsideProfile = 21,
    // A scanline run of a GEM IMG file is out of place, or its flag or count is wrong.
    WrongScanlineRun = 22,
}

// Why an input is refused, and where. All are 0 where it is accepted.
#[repr(C)]
#[derive(Clone, Copy, Debug, PartialEq, Eq)]
pub struct Refusal {
    pub number: u8,
    pub place: usize,
    // The plane row, from 0, of a record at fault in a packed row (numbers 6 and 7); 0 otherwise.
    pub plane_row: usize,
    // The bytes of that row that the records before the one at fault make; 0 otherwise.
    pub good_bytes: usize,
}

// An acceptance.
pub fn none() -> Refusal
    ensures { result ≡ none }
{
    refuse_at(0, 0)
}

// Refused with a number at a place.
pub fn refuse_at(number: u8, place: usize) -> Refusal
    ensures { result ≡ refusal number place }
{
    refuse_in_row(number, place, 0, 0)
}

// Refused at a record of a plane row, with the bytes of the row before it.
pub fn refuse_in_row(number: u8, place: usize, plane_row: usize, good_bytes: usize) -> Refusal
    ensures { result ≡ row_refusal number place plane_row good_bytes }
{
    Refusal {
        number,
        place,
        plane_row,
        good_bytes,
    }
}

// Refused with a number that has no place.
pub fn refuse(number: u8) -> Refusal
    ensures { result ≡ refusal number 0 }
{
    refuse_at(number, 0)
}

impl Reason {
    // The number that stands for it in a refusal.
    // Stays: C has the number, and the clauses of every refusal speak of it by `number_of`.
    pub fn number(self) -> u8
        ensures { result ≡ number_of self }
    {
        self as u8
    }

    // Refused for it, without a place.
    pub fn refuse(self) -> Refusal
        ensures { result ≡ refusal (number_of self) 0 }
    {
        refuse(self.number())
    }

    // Refused for it at a place.
    pub fn refuse_at(self, place: usize) -> Refusal
        ensures { result ≡ refusal (number_of self) place }
    {
        refuse_at(self.number(), place)
    }

    // Refused for it at a record of a plane row, with the bytes of the row before it.
    pub fn refuse_in_row(self, place: usize, plane_row: usize, good_bytes: usize) -> Refusal
        ensures { result ≡ row_refusal (number_of self) place plane_row good_bytes }
    {
        refuse_in_row(self.number(), place, plane_row, good_bytes)
    }
}

// The refusal that C gets: of an acceptance it is none.
impl From<Result<(), Refusal>> for Refusal {
    ghost from_gives = { λ judged refusal. refusal ≡ refusal_of judged };

    fn from(judged: Result<(), Refusal>) -> Refusal {
        match judged {
            Ok(()) => none(),
            Err(refusal) => refusal,
        }
    }
}
