// The band figure: mean and least transmission of a band of rows as two doubles.
#![tactic(auto)]

ghost use Rattle.std.specs.Prelude.{◌≡◌, ◌*◌, ◌^◌, ◌≤◌, ◌<◌, length, sum, fold, min};
ghost use Rattle.rules.specs.Shape.{described};
ghost use Rattle.rules.specs.Good.{GoodSize};
ghost use Rattle.rules.specs.Picture.{quotient, figure as figure_in};

use rules::{Figure, Size};

// Both numbers go into doubles without loss; one division.
fn divided(n: u64, d: u64) -> f64
    requires { (n ≤ 2 ^ 53) × (d ≤ 2 ^ 53) }
    ensures { result ≡ quotient n d }
{
    (n as f64) / (d as f64)
}

// The sum of the entries.
fn sum_of(band: &[u16]) -> u64
    requires { length band.now ≤ 262144 }
    ensures value { result ≡ sum band.now }
    ensures small { result ≤ 2 ^ 53 }
{
    band.iter().map(|t| u64::from(*t)).sum()
}

// The smallest entry, of entries to 10,000.
fn least_of(band: &[u16]) -> u16
    ensures { result ≡ fold min 10000 band.now }
{
    band.iter().fold(10000, |low, t| low.min(*t))
}

// The figure of the rows from .. to, the last left out, of a band that is not refused.
pub fn figure(z: Size, map: &[u16], from: usize, to: usize) -> Figure
    requires { GoodSize (described z) × (length map.now ≡ z.w * z.h) × (from < to) × (to ≤ z.h) }
    ensures { result ≡ figure_in (described z) map.now from to }
{
    let w = z.w;
    let start = from * w;
    let end = to * w;
    let band = &map[start..end];
    let mean = divided(sum_of(band), 10000 * (band.len() as u64));
    let least = divided(u64::from(least_of(band)), 10000);
    Figure { mean, least }
}
