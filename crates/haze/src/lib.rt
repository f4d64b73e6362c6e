// The public calls. None asks anything of its caller: each promises, for every input, what it answers and what stands in the lent memory afterwards.
#![tactic(auto)]

ghost use Rattle.std.specs.Prelude.{ℕ};
ghost use Rattle.rules.specs.Setup.{handed};
ghost use Rattle.rules.specs.Promise.{lent_of, Lights, Clears, Replaces, Hazes, Bands, Budgets};

use refusals::Lengths;
use rules::{Band, Finding, Rect, Refusal, Rgb, Settings, Size};

// Light: the ambient light of a frame, and how many comparisons the dark channel took.
pub fn light(
    z: Size,
    k: Settings,
    mask: &[u8],
    frame: &[u8],
    work: &mut [i64],
) -> Result<Finding, Refusal>
    ensures { Lights z k mask.now frame.now work.old result work.new }
{
    refusals::refuse_light(z, k, mask, frame.len(), work.len())?;
    Ok(light::find(z, k, mask, frame, work))
}

// Clear: the transmission map and the cleared frame, and how many comparisons the dark channel took.
pub fn clear(
    z: Size,
    k: Settings,
    a: Rgb,
    mask: &[u8],
    frame: &[u8],
    map: &mut [u16],
    picture: &mut [u8],
    work: &mut [i64],
) -> Result<u64, Refusal>
    ensures { Clears (handed z k a mask.now)
        (lent_of frame.now map.old picture.old work.old) result
        (lent_of frame.now map.new picture.new work.new) }
{
    let lent = Lengths {
        mask: mask.len(),
        frame: frame.len(),
        map: map.len(),
        picture: picture.len(),
        work: work.len(),
    };
    refusals::refuse_clear(z, k, a, lent)?;
    let count = clearing::clear_whole(map, picture, mask, frame, work, z, k, a);
    Ok(count as u64)
}

// Replace: the new pixels go into the frame, and map and cleared frame are brought up to date.
pub fn replace(
    z: Size,
    k: Settings,
    a: Rgb,
    c: Rect,
    new: &[u8],
    mask: &[u8],
    frame: &mut [u8],
    map: &mut [u16],
    picture: &mut [u8],
    work: &mut [i64],
) -> Result<u64, Refusal>
    ensures { Replaces (handed z k a mask.now) c new.now
        (lent_of frame.old map.old picture.old work.old) result
        (lent_of frame.new map.new picture.new work.new) }
{
    let lent = Lengths {
        mask: mask.len(),
        frame: frame.len(),
        map: map.len(),
        picture: picture.len(),
        work: work.len(),
    };
    refusals::refuse_replace(z, k, a, c, new.len(), lent)?;
    let count = clearing::replace_whole(mask, frame, map, picture, work, z, k, a, c, new);
    Ok(count as u64)
}

// Haze: clean frame, light and transmission map in; hazy frame out.
pub fn haze(z: Size, a: Rgb, clean: &[u8], map: &[u16], hazed: &mut [u8]) -> Result<(), Refusal>
    ensures { Hazes z a clean.now map.now hazed.old result hazed.new }
{
    refusals::refuse_haze(z, a, clean.len(), map, hazed.len())?;
    adding::add(z, a, clean, map, hazed);
    Ok(())
}

// Band figure: mean and least transmission of the rows from .. to, the last left out.
pub fn band(z: Size, map: &[u16], from: usize, to: usize) -> Band
    ensures { Bands z map.now from to result }
{
    match refusals::refuse_band(z, map, from, to) {
        Ok(()) => Band::Figure(bands::figure(z, map, from, to)),
        Err(refusal) => Band::Refused(refusal),
    }
}

// Budget: how many comparisons the dark channel takes for a frame of this size at radius s; 0 for a size or radius that is refused, and no None: C has this
// number, and the call cannot fail.
pub fn comparisons(z: Size, s: usize) -> u64
    ensures { Budgets z s result }
{
    budget::comparisons(z, s)
}
