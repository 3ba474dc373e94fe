// A picture (document 01's term): what a file holds besides its screen; and what reading and writing one gives.
// Definitions: specs/.
#![tactic(auto)]

ghost use Rattle.std.specs.Prelude.{◌≡◌, Err};
ghost use Rattle.picture.specs.Tables.{without_tail, with_tail};
ghost use Rattle.picture.specs.Reading.{given_read_answer};
ghost use Rattle.picture.specs.Writing.{given_write_answer, judge_writing};

use outcome::{Reason, Refusal};
use resolution::{Resolution, SCREEN_BYTES};

pub mod parts;

// The least output of a writing: the longest file of any form.
pub const FILE_BYTES: usize = 32128;

// One table of the animation tail.
#[repr(C)]
#[derive(Clone, Copy)]
pub struct Table {
    pub words: [u16; 4],
}

// A resolution's number, 16 palette words kept whole, whether an animation tail is present, and its four tables of four
// words: left limits, right limits, directions, delays.
#[repr(C)]
#[derive(Clone, Copy)]
pub struct Picture {
    pub resolution: u16,
    pub palette: [u16; 16],
    pub tail_present: bool,
    pub tail: [Table; 4],
}

// What an accepted reading gives: the picture, the packed body's length and its records; both 0 of a raw file.
#[derive(Clone, Copy)]
pub struct PictureRead {
    pub picture: Picture,
    pub body: usize,
    pub records: usize,
}

// What an accepted writing gives: the file's length, the packed body's length and its records; both 0 of a raw file.
#[derive(Clone, Copy)]
pub struct FileWritten {
    pub length: usize,
    pub body: usize,
    pub records: usize,
}

// The answer of a reading in C: what it gives; zero in all of a refusal.
// C's struct: the exported function gives it back.
#[repr(C)]
#[derive(Clone, Copy)]
pub struct ReadAnswer {
    pub refusal: Refusal,
    pub picture: Picture,
    pub body: usize,
    pub records: usize,
}

// The answer of a writing in C: what it gives; zero in all of a refusal.
// C's struct: exported functions give it back.
#[repr(C)]
#[derive(Clone, Copy)]
pub struct WriteAnswer {
    pub refusal: Refusal,
    pub length: usize,
    pub body: usize,
    pub records: usize,
}

impl From<Result<PictureRead, Refusal>> for ReadAnswer {
    ghost from_gives = { λ given answer. answer ≡ given_read_answer given };

    fn from(given: Result<PictureRead, Refusal>) -> ReadAnswer {
        match given {
            Ok(read) => ReadAnswer {
                refusal: outcome::none(),
                picture: read.picture,
                body: read.body,
                records: read.records,
            },
            Err(refusal) => ReadAnswer {
                refusal,
                picture: without_tail(0, [0u16; 16]),
                body: 0,
                records: 0,
            },
        }
    }
}

impl From<Result<FileWritten, Refusal>> for WriteAnswer {
    ghost from_gives = { λ given answer. answer ≡ given_write_answer given };

    fn from(given: Result<FileWritten, Refusal>) -> WriteAnswer {
        match given {
            Ok(written) => WriteAnswer {
                refusal: outcome::none(),
                length: written.length,
                body: written.body,
                records: written.records,
            },
            Err(refusal) => WriteAnswer {
                refusal,
                length: 0,
                body: 0,
                records: 0,
            },
        }
    }
}

// A picture without a tail.
pub fn without_tail(resolution: u16, palette: [u16; 16]) -> Picture
    ensures { result ≡ without_tail resolution palette }
{
    let tail = parts::hold([[0u16; 4]; 4]);
    Picture {
        resolution,
        palette,
        tail_present: false,
        tail,
    }
}

// A picture with a tail.
pub fn with_tail(resolution: u16, palette: [u16; 16], tail: [Table; 4]) -> Picture
    ensures { result ≡ with_tail resolution palette tail }
{
    Picture {
        resolution,
        palette,
        tail_present: true,
        tail,
    }
}

// Judges a writing: the lengths of the screen and the output, then the resolution's number.
#[tactic(auto, unfolding(crate::specs::Writing::judge_writing))]
pub fn judge_writing(screen: usize, out: usize, resolution: u16) -> Result<Resolution, Refusal>
    ensures { result ≡ judge_writing screen out resolution }
{
    if screen < SCREEN_BYTES {
        return Err(Reason::AreaTooShort.refuse());
    }
    if out < FILE_BYTES {
        return Err(Reason::AreaTooShort.refuse());
    }
    Resolution::try_from(resolution)
}
