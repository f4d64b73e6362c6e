// Haze added to a clean frame, of a call that is not refused.
#![tactic(auto)]

ghost use Rattle.std.specs.Prelude.{◌≡◌, ℕ, ◌+◌, ◌*◌, ◌≤◌, length, get_or};
ghost use Rattle.rules.specs.Shape.{described};
ghost use Rattle.rules.specs.Buffers.{hazed as hazed_frame};

use pixel::hazed;
use rules::{Rgb, Size};

// One loop over the pixels of the frame.
pub fn add(z: Size, a: Rgb, clean: &[u8], map: &[u16], out: &mut [u8])
    requires clean_len { (length clean.now ≡ 3 * (z.w * z.h)) × (length map.now ≡ z.w * z.h) × (length out.old ≡ 3 * (z.w * z.h)) }
    requires by_index { (p : ℕ) → get_or map.now p 0 ≤ 10000 }
    ensures { out.new ≡ hazed_frame (described z) a clean.now map.now }
{
    for (p, sample) in map.iter().enumerate() {
        let t = u64::from(*sample);
        let q = 3 * p;
        out[q] = hazed(a.r, clean[q], t);
        out[q + 1] = hazed(a.g, clean[q + 1], t);
        out[q + 2] = hazed(a.b, clean[q + 2], t);
    }
}
