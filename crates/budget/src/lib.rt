// How many comparisons the minimum takes, worked out from a size and a radius alone: what a caller can plan a frame's time by before there is a frame.
#![tactic(auto)]

ghost use Rattle.rules.specs.Count.{comparisons, samples};
ghost use Rattle.rules.specs.Promise.{Budgets};
ghost use Rattle.std.specs.Prelude.{◌≡◌, ◌≤◌, ◌<◌};

use judge::wrong_size;
use rules::Size;

// For a line of n samples at radius s. Of the blocks of k = 2s + 1 the last perhaps is shorter; `full` are the others. Each sample but the first of its block is
// compared twice. A window lies in two blocks where it begins in a block before the last, but not at the block's first sample; the last window begins at n - s - 1.
#[tactic(auto, using(crate::proofs::Closed::counted))]
fn line(n: usize, s: usize) -> usize
    requires { (0 < n) × (n ≤ 1024) × (s ≤ 30) }
    ensures { result ≡ comparisons s (samples n) }
{
    let k = 2 * s + 1;
    let full = (n - 1) / k;
    let two = (full * k).min(n.saturating_sub(s)) - full;
    2 * (n - 1 - full) + two
}

// For all rows and then all columns of a frame of this size at radius s. For a size or radius that is refused it is 0, and no None: C has this number.
pub fn comparisons(z: Size, s: usize) -> u64
    ensures { Budgets z s result }
{
    if wrong_size(z) || 30 < s {
        return 0;
    }
    (z.h * line(z.w, s) + z.w * line(z.h, s)) as u64
}
