// The library for C, frames: exported functions, each one public call. Settings, a light and a rectangle are arrays, which the header declares as structs.
// Each returns 0 or the refusal number, and on a refusal nothing that it was lent changes, result places included.
#![tactic(auto)]

ghost use Rattle.rules.specs.Promise.{lent_of, Budgets};
ghost use Rattle.boundary.specs.Handed.{size, settings_in, rgb_in, rect_in, setup_in, figure_in, finding_in};
ghost use Rattle.haze_c.specs.Calls.{light_places, frame_places, LightReturns, ClearReturns, ReplaceReturns, AddReturns, BandReturns};

use boundary::{counted, figured, lit, number, rect_in, rgb_in, settings_in, sized};

// Light: the ambient light of a frame and the comparisons of its dark channel go into the two places.
#[unsafe(no_mangle)]
pub extern "C" fn haze_light(
    w: u64,
    h: u64,
    settings: &[u64; 6],
    mask: &[u8],
    frame: &[u8],
    work: &mut [i64],
    lights: &mut [u8; 3],
    comparisons: &mut u64,
) -> u8
    ensures { LightReturns (size w h) (settings_in settings.now) mask.now frame.now
        (light_places work.old (finding_in lights.old comparisons.old))
        result
        (light_places work.new (finding_in lights.new comparisons.new)) }
{
    lit(
        haze::light(sized(w, h), settings_in(settings), mask, frame, work),
        lights,
        comparisons,
    )
}

// Clear: map and cleared frame. The comparisons of the dark channel go into the place.
#[unsafe(no_mangle)]
pub extern "C" fn haze_clear(
    w: u64,
    h: u64,
    settings: &[u64; 6],
    lights: &[u8; 3],
    mask: &[u8],
    frame: &[u8],
    map: &mut [u16],
    picture: &mut [u8],
    work: &mut [i64],
    comparisons: &mut u64,
) -> u8
    ensures { ClearReturns (setup_in w h settings.now lights.now mask.now)
        (frame_places (lent_of frame.now map.old picture.old work.old) comparisons.old)
        result
        (frame_places (lent_of frame.now map.new picture.new work.new) comparisons.new) }
{
    counted(
        haze::clear(
            sized(w, h),
            settings_in(settings),
            rgb_in(lights),
            mask,
            frame,
            map,
            picture,
            work,
        ),
        comparisons,
    )
}

// Replace: a rectangle of new pixels goes into the frame, and map and cleared frame are brought up to date. The comparisons of the dark channel go into the
// place.
#[unsafe(no_mangle)]
pub extern "C" fn haze_replace(
    w: u64,
    h: u64,
    settings: &[u64; 6],
    lights: &[u8; 3],
    rect: &[u64; 4],
    pixels: &[u8],
    mask: &[u8],
    frame: &mut [u8],
    map: &mut [u16],
    picture: &mut [u8],
    work: &mut [i64],
    comparisons: &mut u64,
) -> u8
    ensures { ReplaceReturns (setup_in w h settings.now lights.now mask.now) (rect_in rect.now) pixels.now
        (frame_places (lent_of frame.old map.old picture.old work.old) comparisons.old)
        result
        (frame_places (lent_of frame.new map.new picture.new work.new) comparisons.new) }
{
    counted(
        haze::replace(
            sized(w, h),
            settings_in(settings),
            rgb_in(lights),
            rect_in(rect),
            pixels,
            mask,
            frame,
            map,
            picture,
            work,
        ),
        comparisons,
    )
}

// Haze: the hazy frame of a clean one.
#[unsafe(no_mangle)]
pub extern "C" fn haze_add(
    w: u64,
    h: u64,
    light: &[u8; 3],
    clean: &[u8],
    map: &[u16],
    hazy: &mut [u8],
) -> u8
    ensures { AddReturns (size w h) (rgb_in light.now) clean.now map.now hazy.old result hazy.new }
{
    number(haze::haze(sized(w, h), rgb_in(light), clean, map, hazy))
}

// Band figure: mean and least transmission of a band of rows go into the two places.
#[unsafe(no_mangle)]
pub extern "C" fn haze_band(
    w: u64,
    h: u64,
    map: &[u16],
    from: u64,
    to: u64,
    mean: &mut f64,
    least: &mut f64,
) -> u8
    ensures { BandReturns (size w h) map.now from to
        (figure_in mean.old least.old)
        result
        (figure_in mean.new least.new) }
{
    figured(
        haze::band(sized(w, h), map, from as usize, to as usize),
        mean,
        least,
    )
}

// Budget: how many comparisons the dark channel takes for a frame of this size at radius s; 0 for a size or radius that is refused.
#[unsafe(no_mangle)]
pub extern "C" fn haze_comparisons(w: u64, h: u64, s: u64) -> u64
    ensures { Budgets (size w h) s result }
{
    haze::comparisons(sized(w, h), s as usize)
}
