// One pixel's arithmetic, as document 01 has it. The one division that every pixel has is that of its slope. What else is divided by is the same
// for many pixels (a light, the size of a window, a transmission): one division makes its scale, and each quotient is then a product. The library's
// other divisions: a share of the pixels once a call (`light`), two of doubles (`bands`), the blocks of a line and a row's place in its block (`windows`,
// `columns`, `budget`), tenths of a number that is written (`fields`).
#![tactic(auto)]

ghost use Rattle.std.specs.Prelude.{◌≡◌, true, false, cond, ℕ, ◌+◌, ◌-◌, ◌*◌, ◌/◌, ◌^◌, ◌≤◌, ◌<◌, min, max, length, pos, negsuc, nat_abs, ◌+ℤ◌, ◌-ℤ◌, ◌*ℤ◌};
ghost use Rattle.std.specs.Int.Signed.{shr_z, lt_z, mag};
ghost use Rattle.rules.specs.Good.{GoodLight};
ghost use Rattle.rules.specs.Light.{darkest, guide};
ghost use Rattle.rules.specs.Transmission.{ratio, least_ratio, coarse_of, slope_of, offset_of, refine_of, held};
ghost use Rattle.rules.specs.Picture.{recover, haze};
ghost use Rattle.rules.specs.Buffers.{pixel_at};
ghost use Rattle.pixel.specs.Moments.{Moments};
ghost use Rattle.pixel.specs.Over.{Over, parts, ScaledBy, Under};

use rules::Rgb;

// How many parts make 1: of the scale of a light, of the scale of a transmission, and of a reciprocal.
const LIGHT_PARTS: u32 = 1 << 16;

const SCALE_PARTS: u64 = 1 << 23;

const RECIPROCAL_PARTS: u64 = 1 << 46;

// What the lower digit of a long division counts to.
const DIGIT: u64 = 1 << 17;

// ---- what is read of a pixel

// The pixel at position p of a frame.
pub fn pixel_at(frame: &[u8], p: usize) -> Rgb
    requires { 3 * p + 3 ≤ length frame.now }
    ensures { result ≡ pixel_at frame.now p }
{
    let q = 3 * p;
    Rgb {
        r: frame[q],
        g: frame[q + 1],
        b: frame[q + 2],
    }
}

// The least of the three bytes.
pub fn darkest_of(i: Rgb) -> u64
    ensures { result ≡ darkest i }
{
    u64::from(i.r.min(i.g.min(i.b)))
}

// The guide: R+G+B.
pub fn guide_of(i: Rgb) -> u64
    ensures { (result ≡ guide i) × (result ≤ 765) }
{
    u64::from(i.r) + u64::from(i.g) + u64::from(i.b)
}

// ---- from light to transmission

// What bytes under the three channels of a light are multiplied by for their ratios, in 65,536ths.
#[derive(Clone, Copy)]
pub struct Scales {
    pub r: u32,
    pub g: u32,
    pub b: u32,
}

// What a byte under the light a is multiplied by for its ratio, in 65,536ths.
pub fn light_scale(a: u8) -> u32
    requires { 0 < a }
    ensures { Over 10000 a 65536 result }
{
    10000 * LIGHT_PARTS / u32::from(a) + 1
}

// A byte over the light of its channel, and the light's scale.
#[derive(Clone, Copy)]
struct Fraction {
    i: u32,
    a: u32,
    k: u32,
    ghost scaled: { Under i a k },
}

// The byte i over the light a.
fn over_light(i: u8, a: u8, k: u32) -> Fraction
    requires { (0 < a) × Over 10000 a 65536 k }
    ensures { ratio result.i result.a ≡ ratio i a }
{
    Fraction {
        i: u32::from(i),
        a: u32::from(a),
        k,
    }
}

// Its ratio, by the light's scale.
#[tactic(auto, using(crate::proofs::Fractions::ratio_scaled))]
fn ratio_of(f: Fraction) -> u64
    ensures { result ≡ ratio f.i f.a }
{
    u64::from(f.i.min(f.a) * f.k / LIGHT_PARTS)
}

// The second number if it is asked for, else the first. A fraction is chosen number by number with it, since the compiler makes no branch of that.
fn chosen(second: bool, x: u32, y: u32) -> u32
    ensures { result ≡ cond second y x }
{
    if second { y } else { x }
}

// Whether x is the smaller of two fractions, told by their cross products; of equal ones either may be said to be.
fn is_smaller(x: Fraction, y: Fraction) -> bool
    ensures { (result ≡ true → x.i * y.a ≤ y.i * x.a) × (result ≡ false → y.i * x.a ≤ x.i * y.a) }
{
    x.i * y.a < y.i * x.a
}

// The smaller of two fractions.
#[tactic(auto, using(crate::proofs::Fractions::smaller_is))]
fn smaller(x: Fraction, y: Fraction) -> Fraction
    ensures { ratio result.i result.a ≡ min (ratio x.i x.a) (ratio y.i y.a) }
{
    let second = is_smaller(y, x);
    Fraction {
        i: chosen(second, x.i, y.i),
        a: chosen(second, x.a, y.a),
        k: chosen(second, x.k, y.k),
    }
}

// The least ratio over the channels: that of the smallest fraction, by the scale of its light.
pub fn least_ratio(i: Rgb, a: Rgb, k: Scales) -> u64
    requires { GoodLight a × ScaledBy a k }
    ensures { result ≡ least_ratio a i }
{
    let red = over_light(i.r, a.r, k.r);
    let green = over_light(i.g, a.g, k.g);
    let blue = over_light(i.b, a.b, k.b);
    let least = smaller(red, smaller(green, blue));
    ratio_of(least)
}

// Coarse transmission, from the least ratio d of a window.
pub fn coarse_of(omega: u64, d: u64) -> u64
    requires { (omega ≤ 10000) × (d ≤ 10000) }
    ensures { result ≡ coarse_of omega d }
{
    u64::from(10000 - (omega as u32) * (d as u32) / 10000)
}

// How far p is from 0, and below 0 from -1.
fn size_of(p: i64) -> u64
    ensures { result ≡ mag p }
{
    if p < 0 { (0 - 1 - p) as u64 } else { p as u64 }
}

// The number that is d from 0, or below 0 from -1.
fn signed(below: bool, d: u64) -> i64
    requires { d < 2 ^ 63 }
    ensures { result ≡ cond below (negsuc d) (pos d) }
{
    if below { 0 - 1 - (d as i64) } else { d as i64 }
}

// The quotient rounded down. `div_euclid` was tried and is slower: it divides numbers with signs, after two tests.
fn floor_div(p: i64, q: u64) -> i64
    requires { 0 < q }
    ensures { result ≡ shr_z p q }
{
    signed(p < 0, size_of(p) / q)
}

// The slope of the line that fits a window.
pub fn slope(n: u64, sg: u64, st: u64, sgg: u64, sgt: u64, e: u64) -> i64
    requires { Moments n sg st sgg sgt × (0 < e) × (e ≤ 585225) }
    ensures exact { result ≡ slope_of n sg st sgg sgt e }
    ensures small { nat_abs result ≤ 2560000 }
{
    let p = (n * sgt) as i64 - (sg * st) as i64;
    floor_div(1024 * p, n * sgg - sg * sg + n * n * e)
}

// 1 / n in 2^46ths, a little more: what x is multiplied by in place of the division by n.
pub fn reciprocal(n: u64) -> u64
    requires { (0 < n) × (n ≤ 14641) }
    ensures { Over 1 n parts result }
{
    RECIPROCAL_PARTS / n + 1
}

// x by a reciprocal. It is x / n where n * x is below 2^46.
fn over(x: u64, inverse: u64) -> u64
    requires { x * inverse < 2 ^ 64 }
    ensures { result ≡ x * inverse / parts }
{
    x * inverse / RECIPROCAL_PARTS
}

// y / n by the reciprocal of n: long division by two digits, the lower of 17 bits.
#[tactic(auto, using(crate::proofs::Scaled::inverse_fits, crate::proofs::Scaled::inverse_is, crate::proofs::Scaled::left_le, crate::proofs::Scaled::low_lt, crate::proofs::Scaled::long))]
fn long_over(y: u64, n: u64, inverse: u64) -> u64
    requires { (0 < n) × (n ≤ 14641) × Over 1 n parts inverse × (y < 4294967296 * n) }
    ensures { result ≡ y / n }
{
    let high = y / DIGIT;
    let q = over(high, inverse);
    let low = (high - q * n) * DIGIT + y % DIGIT;
    q * DIGIT + over(low, inverse)
}

// The offset of the line that fits a window, from its slope a. 2^31 is added to it while it is divided, so that a natural number is.
pub fn offset(n: u64, inverse: u64, sg: u64, st: u64, a: i64) -> i64
    requires { (0 < n) × (n ≤ 14641) × Over 1 n parts inverse × (sg ≤ 765 * n) × (st ≤ 10000 * n) × (nat_abs a ≤ 2560000) }
    ensures exact { result ≡ offset_of n sg st a }
    ensures small { nat_abs result ≤ 2147483648 }
{
    let y = (1024 * st + 2147483648 * n) as i64 - a * (sg as i64);
    (long_over(y as u64, n, inverse) as i64) - 2147483648
}

// A number held into 0 .. top.
fn hold(v: i64, top: u64) -> u64
    ensures { result ≡ held top v }
{
    (v.max(0) as u64).min(top)
}

// 1024 n times the refined value of a pixel, before it is rounded and held: from the sums of slopes and offsets over its window, and its own guide.
fn unheld(sa: i64, sb: i64, g: u64) -> i64
    requires { (g ≤ 765) × (nat_abs sa ≤ 37480960000) × (nat_abs sb ≤ 31441308090368) }
    ensures { result ≡ sa *ℤ pos g +ℤ sb }
{
    sa * (g as i64) + sb
}

// The refined value of a pixel, from the sums of slopes and offsets over its window and its own guide. It is held before it is divided: the
// division by 1024 is then a shift, and that by n is by its reciprocal.
pub fn refined(n: u64, inverse: u64, sa: i64, sb: i64, g: u64) -> u64
    requires { (0 < n) × (n ≤ 14641) × Over 1 n parts inverse × (g ≤ 765) × (nat_abs sa ≤ 2560000 * n) × (nat_abs sb ≤ 2147483648 * n) }
    ensures { (result ≡ refine_of n sa sb g) × (result ≤ 10000) }
{
    let v = hold(unheld(sa, sb, g), 10240000 * n);
    over(v / 1024, inverse)
}

// ---- from transmission to picture, and back

// 10,000 / t in parts of which 2^23 make 1, a little more: the division that a pixel's three channels share. Below 39 it is as at 39, where one
// level of distance from the light already becomes 256.
pub fn scale(t: u32) -> u32
    ensures { Over 10000 (max t 39) 8388608 result × (0 < result) }
{
    (10000 * SCALE_PARTS / u64::from(t.max(39))) as u32 + 1
}

// How far a byte that is d from the light is from it without the haze, to the nearest level. What is past 255 may be any number past it.
fn stretched(d: u8, scale: u32) -> i32
    ensures { (result ≡ pos ((d * scale + 4194304) / 8388608)) × (nat_abs result ≤ 131072) }
{
    ((u64::from(d) * u64::from(scale) + SCALE_PARTS / 2) / SCALE_PARTS) as i32
}

// The light a with q taken from it, or added to it.
fn moved(below: bool, a: u8, q: i32) -> i32
    requires { nat_abs q ≤ 131072 }
    ensures { result ≡ cond below (pos a -ℤ q) (pos a +ℤ q) }
{
    if below {
        i32::from(a) - q
    } else {
        i32::from(a) + q
    }
}

// A byte without the haze: byte i under light a, by the scale of the transmission. Nothing in it is a branch once it is compiled.
pub fn recovered(a: u8, i: u8, scale: u32) -> u8
    ensures { (t : ℕ) → 0 < t → t ≤ 10000 → Over 10000 (max t 39) 8388608 scale → result ≡ recover a i t }
{
    let q = stretched(a.abs_diff(i), scale);
    moved(i < a, a, q).clamp(0, 255) as u8
}

// A byte with haze: clean byte j under light a at transmission t.
pub fn hazed(a: u8, j: u8, t: u64) -> u8
    requires { t ≤ 10000 }
    ensures { result ≡ haze a j t }
{
    let part = t as u32;
    ((u32::from(j) * part + u32::from(a) * (10000 - part) + 5000) / 10000) as u8
}
