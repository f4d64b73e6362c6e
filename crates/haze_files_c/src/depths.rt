// Relative depth for C.
ghost use Rattle.boundary.specs.Handed.{size};
ghost use Rattle.haze_files_c.specs.Depths.{DepthsReturns};

use boundary::{number, sized};

// Depths: the depth of every entry of a map goes into the lent depths.
#[unsafe(no_mangle)]
pub extern "C" fn haze_depths(w: u64, h: u64, map: &[u16], depths: &mut [u16]) -> u8
    ensures { DepthsReturns (size w h) map.now depths.old result depths.new }
{
    number(depth::depths(sized(w, h), map, depths))
}
