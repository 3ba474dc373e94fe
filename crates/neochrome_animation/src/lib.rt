// The colour animation that the header of a NEOchrome picture holds, as two lists of picture formats read it; not the
// format NEOchrome Animation (*.ANI). Definitions: specs/.
#![tactic(auto)]

ghost use Rattle.std.specs.Prelude.{◌≡◌, length};
ghost use Rattle.neochrome.specs.Layout.{file_length};
ghost use Rattle.neochrome_animation.specs.Speed.{direction_number, direction_of, vblanks_of};
ghost use Rattle.neochrome_animation.specs.Lists.{opening1989, flag_as_resolution, shown, shown1989, shown2008};
ghost use Rattle.neochrome_animation.specs.Judging.{listed, animation1989, animation2008, animation, animation_answer};

use outcome::{Reason, Refusal};
use resolution::Resolution;

// The list of picture formats by which a header is read: that of 1989 or that of 2008.
#[derive(Clone, Copy, Debug, PartialEq, Eq)]
pub enum FormatList {
    Of1989 = 1,
    Of2008 = 2,
}

// 1 and 2; any other number is refused.
impl TryFrom<u8> for FormatList {
    type Error = Refusal;

    ghost try_from_gives = { λ number list. list ≡ listed number };

    fn try_from(number: u8) -> Result<Self, Refusal> {
        match number {
            1 => Ok(FormatList::Of1989),
            2 => Ok(FormatList::Of2008),
            _ => Err(Reason::UnknownKind.refuse()),
        }
    }
}

// Where the word stands whose bit 15 marks the limits valid (2008).
const VALID_START: usize = 48;

// Where left and right limit stand, four bits each.
const LIMITS_START: usize = 49;

// Where the word stands whose bit 15 says on.
const ON_START: usize = 50;

// Where the signed speed stands.
const SPEED_START: usize = 51;

// Where the step count stands (2008).
const STEP_COUNT_START: usize = 52;

// A byte's high bit: bytes below it hold the numbers that are not negative.
const HIGH_BIT: u8 = 128;

// The direction that a signed speed gives: stopped where the speed is 0, whether the animation is on or not.
#[derive(Clone, Copy, Debug, PartialEq, Eq)]
pub enum Direction {
    Stopped = 0,
    Left = 1,
    Right = 2,
}

impl Direction {
    // The direction of a signed speed.
    // No From: the name says what the byte is, which its type does not.
    pub fn from_speed(speed: u8) -> Direction
        ensures { result ≡ direction_of speed }
    {
        if speed == 0 {
            return Direction::Stopped;
        }
        if speed < HIGH_BIT {
            return Direction::Right;
        }
        Direction::Left
    }

    // The number of a direction in an answer.
    // Stays: `number-injective` (proofs/Speed.antt) and the clauses of the answer speak of it.
    pub fn number(self) -> u8
        ensures { result ≡ direction_number self }
    {
        self as u8
    }
}

// The first and the last register that cycle, 0 to 15, as they stand: neither their order nor the resolution is judged.
#[derive(Clone, Copy)]
pub struct Limits {
    pub left: u8,
    pub right: u8,
}

// What a list shows of a header.
#[derive(Clone, Copy)]
pub struct ColourAnimation {
    // Where they are valid.
    pub limits: Option<Limits>,
    pub on: bool,
    pub direction: Direction,
    // Vblanks between two cycles: one less than the speed without its sign, and 0 of a speed of 0.
    pub vblanks: u8,
    // Steps for which a slide show keeps the picture; the list of 1989 has none and shows 0.
    pub step_count: u16,
}

// The answer of an animation: what is shown, the direction by its number; all 0 of a refusal.
// C's struct: the exported function gives it back.
#[repr(C)]
#[derive(Clone, Copy)]
pub struct AnimationAnswer {
    pub refusal: Refusal,
    pub limits_valid: bool,
    pub left_limit: u8,
    pub right_limit: u8,
    pub on: bool,
    pub direction: u8,
    pub vblanks: u8,
    pub step_count: u16,
}

impl From<Result<ColourAnimation, Refusal>> for AnimationAnswer {
    ghost from_gives = { λ given answer. answer ≡ animation_answer given };

    fn from(given: Result<ColourAnimation, Refusal>) -> AnimationAnswer {
        match given {
            Ok(animation) => {
                let limits = animation.limits.unwrap_or(Limits { left: 0, right: 0 });
                AnimationAnswer {
                    refusal: outcome::none(),
                    limits_valid: animation.limits.is_some(),
                    left_limit: limits.left,
                    right_limit: limits.right,
                    on: animation.on,
                    direction: animation.direction.number(),
                    vblanks: animation.vblanks,
                    step_count: animation.step_count,
                }
            }
            Err(refusal) => AnimationAnswer {
                refusal,
                limits_valid: false,
                left_limit: 0,
                right_limit: 0,
                on: false,
                direction: Direction::Stopped.number(),
                vblanks: 0,
                step_count: 0,
            },
        }
    }
}

// The vblanks between two cycles at a signed speed.
fn vblanks(speed: u8) -> u8
    ensures { result ≡ vblanks_of speed }
{
    if speed == 0 {
        return 0;
    }
    if speed < HIGH_BIT {
        return speed - 1;
    }
    255 - speed
}

// What is shown of a header, by either list.
fn shown(file: &[u8], limits_valid: bool, on: bool, step_count: u16) -> ColourAnimation
    requires { length file.now ≡ file_length }
    ensures { result ≡ shown file.now limits_valid on step_count }
{
    let limits = file[LIMITS_START];
    let speed = file[SPEED_START];
    ColourAnimation {
        limits: limits_valid.then_some(Limits {
            left: limits / 16,
            right: limits % 16,
        }),
        on,
        direction: Direction::from_speed(speed),
        vblanks: vblanks(speed),
        step_count,
    }
}

// What the list of 1989 shows: valid limits and no step count.
#[tactic(auto, unfolding(crate::specs::Lists::shown1989))]
fn shown_1989(file: &[u8]) -> ColourAnimation
    requires { length file.now ≡ file_length }
    ensures { result ≡ shown1989 file.now }
{
    shown(file, true, HIGH_BIT <= file[ON_START], 0)
}

// What the list of 2008 shows: bit 15 of two words, and a third word.
#[tactic(auto, unfolding(crate::specs::Lists::shown2008))]
fn shown_2008(file: &[u8]) -> ColourAnimation
    requires { length file.now ≡ file_length }
    ensures { result ≡ shown2008 file.now }
{
    let limits_valid = (words::word_at(file, VALID_START) >> 15) % 2 == 1;
    let on = (words::word_at(file, ON_START) >> 15) % 2 == 1;
    let step_count = words::word_at(file, STEP_COUNT_START);
    shown(file, limits_valid, on, step_count)
}

// A refusal of the flag as one of the resolution, and any other as it is.
// From refusal to refusal, as `map_err` takes it.
fn flag_as_resolution(refusal: Refusal) -> Refusal
    ensures { result ≡ flag_as_resolution refusal }
{
    if refusal.number == Reason::WrongFlag.number() {
        return Reason::UnknownResolution.refuse();
    }
    refusal
}

// A file opened by the list of 1989: what is the flag in 2008 is part of the resolution.
fn open_1989(file: &[u8]) -> Result<Resolution, Refusal>
    ensures { result ≡ opening1989 file.now }
{
    neochrome::open_file(file).map_err(flag_as_resolution)
}

// What the list of 1989 shows of a file, or its refusal.
#[tactic(auto, using(crate::proofs::Lists::opened_fits_1989), unfolding(crate::specs::Judging::animation1989))]
fn animation_1989(file: &[u8]) -> Result<ColourAnimation, Refusal>
    ensures { result ≡ animation1989 file.now }
{
    open_1989(file)?;
    Ok(shown_1989(file))
}

// What the list of 2008 shows of a file, or its refusal.
#[tactic(auto, using(neochrome::proofs::Opening::opened_fits), unfolding(crate::specs::Judging::animation2008))]
fn animation_2008(file: &[u8]) -> Result<ColourAnimation, Refusal>
    ensures { result ≡ animation2008 file.now }
{
    neochrome::open_file(file)?;
    Ok(shown_2008(file))
}

// The colour animation of a NEOchrome file, by the list that a number names.
#[tactic(auto, unfolding(crate::specs::Judging::animation))]
pub fn animation(list: u8, file: &[u8]) -> Result<ColourAnimation, Refusal>
    ensures { result ≡ animation list file.now }
{
    match FormatList::try_from(list)? {
        FormatList::Of1989 => animation_1989(file),
        FormatList::Of2008 => animation_2008(file),
    }
}
