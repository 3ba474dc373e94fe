// The three resolutions of the ST screen, with the shape of each as an associated constant. Definitions: specs/.
#![tactic(auto)]

ghost use Rattle.std.specs.Prelude.{◌≡◌, Ok};
ghost use Rattle.resolution.specs.Shapes.{shape_of, width_of, height_of, planes_of, row_bytes_of, plane_rows_of};
ghost use Rattle.resolution.specs.Shapes.{groups_of, line_bytes_of, registers_of, raster_of};
ghost use Rattle.resolution.specs.Choice.{number_of, with_resolution, judge_screen};

use outcome::{Reason, Refusal};
use raster::Raster;

// Bytes of a screen, at every resolution.
pub const SCREEN_BYTES: usize = 32000;

// Pixels in a scan line, scan lines, planes, bytes of a plane row, and plane rows.
#[derive(Clone, Copy)]
pub struct Shape {
    pub width: usize,
    pub height: usize,
    pub planes: usize,
    pub row_bytes: usize,
    pub plane_rows: usize,
}

// One of the three resolutions.
#[derive(Clone, Copy, Debug, PartialEq, Eq)]
pub enum Resolution {
    Low = 0,
    Medium = 1,
    High = 2,
}

// 0 low, 1 medium, 2 high; any other number is refused.
impl TryFrom<u16> for Resolution {
    type Error = Refusal;

    ghost try_from_gives = { λ number chosen. chosen ≡ with_resolution number (λ r. Ok r) };

    fn try_from(number: u16) -> Result<Self, Refusal> {
        match number {
            0 => Ok(Resolution::Low),
            1 => Ok(Resolution::Medium),
            2 => Ok(Resolution::High),
            _ => Err(Reason::UnknownResolution.refuse()),
        }
    }
}

impl Resolution {
    // The shape of a low screen.
    pub const LOW: Shape = Shape {
        width: 320,
        height: 200,
        planes: 4,
        row_bytes: 40,
        plane_rows: 800,
    };

    // The shape of a medium screen.
    pub const MEDIUM: Shape = Shape {
        width: 640,
        height: 200,
        planes: 2,
        row_bytes: 80,
        plane_rows: 400,
    };

    // The shape of a high screen.
    pub const HIGH: Shape = Shape {
        width: 640,
        height: 400,
        planes: 1,
        row_bytes: 80,
        plane_rows: 400,
    };

    // The number that names it.
    pub fn number(self) -> u16
        ensures { result ≡ number_of self }
    {
        self as u16
    }

    // Its width, height, planes, plane row bytes and plane rows.
    pub fn shape(self) -> Shape
        ensures { result ≡ shape_of self }
    {
        match self {
            Resolution::Low => Resolution::LOW,
            Resolution::Medium => Resolution::MEDIUM,
            Resolution::High => Resolution::HIGH,
        }
    }

    // Pixels in a scan line.
    pub fn width(self) -> usize
        ensures { result ≡ width_of self }
    {
        self.shape().width
    }

    // Scan lines.
    pub fn height(self) -> usize
        ensures { result ≡ height_of self }
    {
        self.shape().height
    }

    // Planes: each adds one bit to a register.
    pub fn planes(self) -> usize
        ensures { result ≡ planes_of self }
    {
        self.shape().planes
    }

    // Bytes of a plane row.
    pub fn row_bytes(self) -> usize
        ensures { result ≡ row_bytes_of self }
    {
        self.shape().row_bytes
    }

    // Plane rows of a screen.
    pub fn plane_rows(self) -> usize
        ensures { result ≡ plane_rows_of self }
    {
        self.shape().plane_rows
    }

    // Groups of 16 pixels in a scan line.
    pub fn groups(self) -> usize
        ensures { result ≡ groups_of self }
    {
        self.width() / 16
    }

    // Bytes of a scan line, all planes.
    // A table by match, as `registers`: no plainer as one.
    pub fn line_bytes(self) -> usize
        ensures { result ≡ line_bytes_of self }
    {
        match self {
            Resolution::Low => 160,
            Resolution::Medium => 160,
            Resolution::High => 80,
        }
    }

    // The raster of a screen.
    pub fn raster(self) -> Raster
        ensures { result ≡ raster_of self }
    {
        Raster {
            lines: self.height() as u16,
            groups: self.groups() as u8,
            planes: self.planes() as u8,
        }
    }

    // Registers: two to the power of the planes.
    // A table by match, as `line_bytes`: no plainer as one.
    pub fn registers(self) -> u8
        ensures { result ≡ registers_of self }
    {
        match self {
            Resolution::Low => 16,
            Resolution::Medium => 4,
            Resolution::High => 2,
        }
    }
}

// A screen's length judged, then the resolution's number.
pub fn judge_screen(screen_len: usize, number: u16) -> Result<Resolution, Refusal>
    ensures { result ≡ judge_screen screen_len number (λ r. Ok r) }
{
    if screen_len < SCREEN_BYTES {
        return Err(Reason::AreaTooShort.refuse());
    }
    Resolution::try_from(number)
}
