// Planes that stand one behind the other put into a raster. Definitions: specs/Planar.antt.
#![tactic(auto)]

ghost use Rattle.std.specs.Prelude.{◌≡◌};
ghost use Rattle.planar.specs.Planar.{put_planar};

use raster::Raster;
use raster::putting::Spacing;

// Puts all planes into the area, from where they stand one behind the other. Where the area or the planes are shorter
// than the raster nothing changes.
pub fn put_planes(area: &mut [u8], r: Raster, planes: &[u8])
    ensures { area.new ≡ put_planar r planes.now area.old }
{
    let width = r.row_bytes();
    let spacing = Spacing {
        raster: r,
        step: width,
        gap: r.lines as usize * width,
    };
    spacing.put(area, planes);
}
