// The palette position in force at a column for a register of a Spectrum 512 picture (document 02, ticket 5; source
// 000). Definitions: specs/.
#![tactic(auto)]

ghost use Rattle.std.specs.Prelude.{◌≡◌, ◌<◌};
ghost use Rattle.spectrum_positions.specs.Positions.{columns, registers, second_from, position_of};
ghost use Rattle.spectrum_positions.specs.Positions.{judge_position, position_answer};
ghost use Rattle.spectrum_positions.specs.PositionTable.{position_table};

mod table;

use outcome::{Reason, Refusal};
use table::POSITIONS;

// The columns of a scan line.
pub const COLUMNS: usize = 320;

// The registers, and as many entries has a palette.
const REGISTERS: u8 = 16;

const PALETTE_ENTRIES: u16 = 16;

// So many columns after a register's second palette its third one begins.
const PALETTE_COLUMNS: u16 = 160;

// The answer of a position question in C: 0 to 47; 0 of a refusal.
// C's struct: the exported function gives it back.
#[repr(C)]
#[derive(Clone, Copy)]
pub struct PositionAnswer {
    pub refusal: Refusal,
    pub position: u8,
}

impl From<Result<u8, Refusal>> for PositionAnswer {
    ghost from_gives = { λ given answer. answer ≡ position_answer given };

    fn from(given: Result<u8, Refusal>) -> PositionAnswer {
        match given {
            Ok(position) => PositionAnswer {
                refusal: outcome::none(),
                position,
            },
            Err(refusal) => PositionAnswer {
                refusal,
                position: 0,
            },
        }
    }
}

// The table of positions, entry by entry.
fn position_table() -> [u8; 5120]
    ensures { result ≡ position_table }
{
    POSITIONS
}

// The table's entry of a column and a register.
fn table_entry(column: usize, register: u8) -> u8
    requires { (column < columns) × (register < registers) }
    ensures { result ≡ position_of column register }
{
    position_table()[column * 16 + register as usize]
}

// The palette position at a column for a register, by the table.
#[tactic(auto, unfolding(crate::specs::Positions::judge_position))]
pub fn position(column: usize, register: u8) -> Result<u8, Refusal>
    ensures { result ≡ judge_position column register }
{
    if COLUMNS <= column || REGISTERS <= register {
        return Err(Reason::OutOfRange.refuse());
    }
    Ok(table_entry(column, register))
}

// The first column of a register's second palette.
#[tactic(auto, unfolding(crate::specs::Positions::second_from))]
fn second_from(register: u8) -> u16
    ensures { (result ≡ second_from register) × (result < 2560) }
{
    let c = register as u16;
    if c % 2 == 1 { 10 * c - 5 } else { 10 * c + 1 }
}

// The same by the rule: for the pixels of a line it is faster than the table, which is copied at each question.
#[tactic(auto, unfolding(crate::specs::Positions::position_of))]
pub fn position_at(column: u16, register: u8) -> u16
    ensures { result ≡ position_of column register }
{
    let second = second_from(register);
    if column < second {
        return register as u16;
    }
    if column < second + PALETTE_COLUMNS {
        return register as u16 + PALETTE_ENTRIES;
    }
    register as u16 + 2 * PALETTE_ENTRIES
}
