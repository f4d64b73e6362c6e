// The tests behind the refusal numbers. Products and sums are formed only of numbers that have passed a test that keeps them small.
#![tactic(auto)]

ghost use Rattle.std.specs.Prelude.{◌≡◌, cond, ◌||◌, ◌+◌, ltb, Ok, Err};
ghost use Rattle.rules.specs.Shape.{described};
ghost use Rattle.rules.specs.Good.{GoodSize};
ghost use Rattle.rules.specs.Refusals.{out, bad_size, bad_settings, bad_frame, bad_map, bad_mask, bad_work, bad_light, bad_rect, bad_band, bad_entries, bad_seen};

use rules::{Rect, Refusal, Rgb, Settings, Size};

// ---- from a test to an answer

// Why a call is refused, where the test holds.
pub fn refuse(wrong: bool, why: Refusal) -> Result<(), Refusal>
    ensures { result ≡ cond wrong (Err why) (Ok tt) }
{
    if wrong { Err(why) } else { Ok(()) }
}

// ---- numbers in their ranges

fn outside(lo: u64, hi: u64, n: u64) -> bool
    ensures { result ≡ out lo hi n }
{
    n < lo || hi < n
}

// at + n is past the end, whatever their size.
fn past(end: usize, at: usize, n: usize) -> bool
    ensures { result ≡ ltb end (at + n) }
{
    end < at || end - at < n
}

// ---- the table

pub fn wrong_size(z: Size) -> bool
    ensures { result ≡ bad_size z }
{
    outside(1, 1024, z.w as u64) || outside(1, 1024, z.h as u64) || 262144 < z.w * z.h
}

pub fn wrong_settings(k: Settings) -> bool
    ensures { result ≡ bad_settings k }
{
    30 < k.s
        || 60 < k.r
        || outside(1, 10000, k.omega)
        || outside(1, 585225, k.e)
        || outside(1, 10000, k.t0)
        || outside(1, 1000, k.share)
}

pub fn wrong_frame(z: Size, n: usize) -> bool
    requires { GoodSize (described z) }
    ensures { result ≡ bad_frame z n }
{
    n != 3 * (z.w * z.h)
}

pub fn wrong_map(z: Size, n: usize) -> bool
    requires { GoodSize (described z) }
    ensures { result ≡ bad_map z n }
{
    n != z.w * z.h
}

pub fn wrong_mask(z: Size, n: usize) -> bool
    requires { GoodSize (described z) }
    ensures { result ≡ bad_mask z n }
{
    n != z.w * z.h
}

pub fn wrong_work(z: Size, n: usize) -> bool
    requires { GoodSize (described z) }
    ensures { result ≡ bad_work z n }
{
    n < 8 * ((z.w + 1) * (z.h + 1))
}

pub fn wrong_light(a: Rgb) -> bool
    ensures { result ≡ bad_light a }
{
    a.r == 0 || a.g == 0 || a.b == 0
}

pub fn wrong_rect(z: Size, c: Rect) -> bool
    ensures { result ≡ bad_rect z c }
{
    c.w == 0 || c.h == 0 || past(z.w, c.x, c.w) || past(z.h, c.y, c.h)
}

pub fn wrong_band(z: Size, from: usize, to: usize) -> bool
    ensures { result ≡ bad_band z from to }
{
    !(from < to) || z.h < to
}

// One loop over the whole map, with no way out before its end: that is quicker.
pub fn wrong_entries(map: &[u16]) -> bool
    ensures { result ≡ bad_entries map.now }
{
    let mut bad = false;
    for t in map {
        bad |= 10000 < *t;
    }
    bad
}

// No pixel is seen. The first that is ends the search.
pub fn wrong_seen(mask: &[u8]) -> bool
    ensures { result ≡ bad_seen mask.now }
{
    mask.iter().all(|m| *m == 0)
}
