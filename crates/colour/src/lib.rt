// The colour that a register shows on a machine. Definitions: specs/.
#![tactic(auto)]

ghost use Rattle.std.specs.Prelude.{◌≡◌, cond, ◌<◌, eqb, Ok};
ghost use Rattle.colour.specs.Machines.{with_machine, stretch, ste_level, nibble_shown};
ghost use Rattle.colour.specs.Palette.{nibble, word_colour};
ghost use Rattle.colour.specs.Shown.{white, black, register_colour, shown, colour_answer};

use outcome::{Reason, Refusal};
use resolution::Resolution;

// The ST's levels 0 to 7 as they are shown.
const LEVELS: [u8; 8] = [0, 36, 72, 109, 145, 182, 218, 255];

// Level 1 of an STE's levels 0 to 15 as it is shown; each is so many times as much.
const STE_STEP: u16 = 17;

// The machine whose colours are shown.
#[derive(Clone, Copy, Debug, PartialEq, Eq)]
pub enum Machine {
    St,
    Ste,
}

// 1 ST, 2 STE; any other number is refused.
impl TryFrom<u8> for Machine {
    type Error = Refusal;

    ghost try_from_gives = { λ number chosen. chosen ≡ with_machine number (λ m. Ok m) };

    fn try_from(number: u8) -> Result<Self, Refusal> {
        match number {
            1 => Ok(Machine::St),
            2 => Ok(Machine::Ste),
            _ => Err(Reason::OutOfRange.refuse()),
        }
    }
}

// Red, green and blue, each 0 to 255.
#[derive(Clone, Copy, Debug, PartialEq, Eq)]
pub struct Rgb {
    pub red: u8,
    pub green: u8,
    pub blue: u8,
}

// What register 0 shows at high resolution.
const WHITE: Rgb = Rgb {
    red: 255,
    green: 255,
    blue: 255,
};

// What any other register shows there.
const BLACK: Rgb = Rgb {
    red: 0,
    green: 0,
    blue: 0,
};

// The answer of a colour in C: red, green and blue, 0 to 255; all 0 of a refusal.
// C's struct: the exported function gives it back.
#[repr(C)]
#[derive(Clone, Copy)]
pub struct ColourAnswer {
    pub refusal: Refusal,
    pub red: u8,
    pub green: u8,
    pub blue: u8,
}

impl From<Result<Rgb, Refusal>> for ColourAnswer {
    ghost from_gives = { λ given answer. answer ≡ colour_answer given };

    fn from(given: Result<Rgb, Refusal>) -> ColourAnswer {
        match given {
            Ok(colour) => ColourAnswer {
                refusal: outcome::none(),
                red: colour.red,
                green: colour.green,
                blue: colour.blue,
            },
            Err(refusal) => ColourAnswer {
                refusal,
                red: 0,
                green: 0,
                blue: 0,
            },
        }
    }
}

// Level v of an ST stretched to 0 to 255.
#[tactic(auto, unfolding(crate::specs::Machines::stretch))]
fn stretch(v: u16) -> u8
    requires { v < 8 }
    ensures { result ≡ stretch v }
{
    LEVELS[v as usize]
}

// The level, 0 to 15, that a nibble means on an STE.
#[tactic(auto, unfolding(crate::specs::Machines::ste_level))]
fn ste_level(n: u16) -> u16
    requires { n < 16 }
    ensures { (result ≡ ste_level n) × (result < 16) }
{
    2 * (n % 8) + n / 8
}

// What a nibble shows on a machine.
#[tactic(auto, unfolding(crate::specs::Machines::nibble_shown))]
fn nibble_shown(m: Machine, n: u16) -> u8
    requires { n < 16 }
    ensures { result ≡ nibble_shown m n }
{
    match m {
        Machine::St => stretch(n % 8),
        Machine::Ste => (STE_STEP * ste_level(n)) as u8,
    }
}

// The nibble that a palette word holds in its four bits from a bit up.
#[tactic(auto, unfolding(crate::specs::Palette::nibble))]
fn nibble(word: u16, bit: u16) -> u16
    requires { bit < 16 }
    ensures { (result ≡ nibble word bit) × (result < 16) }
{
    (word >> bit) % 16
}

// The colour of a palette word.
#[tactic(auto, unfolding(crate::specs::Palette::word_colour))]
fn word_colour(m: Machine, word: u16) -> Rgb
    ensures { result ≡ word_colour m word }
{
    Rgb {
        red: nibble_shown(m, nibble(word, 8)),
        green: nibble_shown(m, nibble(word, 4)),
        blue: nibble_shown(m, nibble(word, 0)),
    }
}

// White for register 0 and black for any other.
fn monochrome(register: u8) -> Rgb
    ensures { result ≡ cond (eqb register 0) white black }
{
    if register == 0 { WHITE } else { BLACK }
}

// The colour of a register with its palette word, at a resolution and on a machine.
#[tactic(auto, unfolding(crate::specs::Shown::register_colour))]
fn register_colour(r: Resolution, m: Machine, word: u16, register: u8) -> Rgb
    ensures { result ≡ register_colour r m word register }
{
    match r {
        Resolution::Low | Resolution::Medium => word_colour(m, word),
        Resolution::High => monochrome(register),
    }
}

// Colour: what a register shows with a palette, at the resolution and on the machine that numbers name.
#[tactic(auto, unfolding(crate::specs::Shown::shown, crate::specs::Shown::judge_register))]
pub fn colour(
    resolution: u16,
    machine: u8,
    palette: [u16; 16],
    register: u8,
) -> Result<Rgb, Refusal>
    ensures { result ≡ shown resolution machine palette register }
{
    let r = Resolution::try_from(resolution)?;
    let m = Machine::try_from(machine)?;
    if register >= r.registers() {
        return Err(Reason::OutOfRange.refuse());
    }
    Ok(register_colour(r, m, palette[register as usize], register))
}
