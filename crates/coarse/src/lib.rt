// The first pass over a box: from the frame's bytes through the least ratios and their minima to the samples, row by row. A hidden pixel has the ratio 10,000,
// which lowers no minimum, and words of 0, which add nothing to a sum.
#![tactic(auto)]

ghost use Rattle.std.specs.Prelude.{◌≡◌, ℕ, ◌+◌, ◌-◌, ◌*◌, ◌≤◌, ◌<◌, List, length, get_or, ℤ, pos};
ghost use Rattle.rules.specs.Good.{GoodLight};
ghost use Rattle.rules.specs.Window.{Plane, Shown};
ghost use Rattle.rules.specs.Count.{frame_comparisons};
ghost use Rattle.rules.specs.Transmission.{Sample, sample};
ghost use Rattle.planes.specs.View.{InPlane, box_of};
ghost use Rattle.planes.specs.Cells.{SameFrom};
ghost use Rattle.planes.specs.Stage.{GivenView, Sampled, masked_at, box_seen, box_pixels};
ghost use Rattle.pixel.specs.Over.{ScaledBy};
ghost use Rattle.columns.specs.Down.{RowIs, along_count};
ghost use Rattle.coarse.specs.Rows.{Scaled, ratio_at, least_along, sample_of, SamplesPut, SampledTo};

use columns::Columns;
use pixel::{Scales, coarse_of, guide_of, least_ratio, light_scale, pixel_at};
use planes::{View, row_start, seen_or};
use rules::{Rgb, Settings};
use windows::shrink;

// The entry at a light becomes its scale.
fn note(table: &mut [u32], a: u8)
    requires { (0 < a) × (length table.old ≡ 256) }
    ensures { Scaled table.new a × ((b : ℕ) → Scaled table.old b → Scaled table.new b) }
{
    table[a as usize] = light_scale(a);
}

// The scales of the three channels' lights. They go through a table, or the compiler would divide once a pixel in place of three times a call.
fn scales_of(a: Rgb) -> Scales
    requires { GoodLight a }
    ensures { ScaledBy a result }
{
    let mut table = [0u32; 256];
    note(&mut table[..], a.r);
    note(&mut table[..], a.g);
    note(&mut table[..], a.b);
    Scales {
        r: table[a.r as usize],
        g: table[a.g as usize],
        b: table[a.b as usize],
    }
}

// The least ratios of a row of pixels.
fn ratio_row(row: &mut [u16], mask: &[u8], frame: &[u8], a: Rgb, k: Scales)
    requires { (length mask.now ≡ length row.old) × (length frame.now ≡ 3 * length row.old) × GoodLight a × ScaledBy a k }
    ensures { (x : ℕ) → x < length row.old → get_or row.new x 0 ≡ ratio_at a (masked_at mask.now frame.now x) }
{
    for x in 0..row.len() {
        let ratio = least_ratio(pixel_at(frame, x), a, k) as u16;
        row[x] = seen_or(mask[x], ratio, 10000);
    }
}

// Step i of the minimum has row i of the box, if there is one: its least ratios, each over its window along the row. Returns the number of comparisons.
fn take_row(
    mask: &[u8],
    frame: &[u8],
    v: View,
    i: usize,
    s: usize,
    a: Rgb,
    k: Scales,
    row: &mut [u16],
    p: &mut [u16],
    q: &mut [u16],
) -> usize
    requires in_plane { InPlane v × (s ≤ 30) × (length mask.now ≡ v.w * v.h) × (length frame.now ≡ 3 * (v.w * v.h)) × GoodLight a × ScaledBy a k }
    requires row_len { (length row.old ≡ v.wide) × (length p.old ≡ 1024) × (length q.old ≡ 1024) }
    ensures mins { i < v.tall → RowIs row.new (least_along v a s mask.now frame.now) i v.wide }
    ensures count { result ≡ along_count s v.wide v.tall i }
{
    if v.tall <= i {
        return 0;
    }
    let from = row_start(v, i);
    let to = from + v.wide;
    ratio_row(row, &mask[from..to], &frame[3 * from..3 * to], a, k);
    shrink(row, s, p, q)
}

// The word that has `low`, and `high` in units of `unit` above it.
fn word(low: u64, unit: u64, high: u64) -> i64
    requires { (low ≤ 10000) × (unit ≤ 268435456) × (high ≤ 7650000) }
    ensures { result ≡ pos (low + unit * high) }
{
    (low + unit * high) as i64
}

// The samples of a row of pixels, from the least ratios d of their windows: from `to` on the word of each that has its guide g, and above it g times the
// coarse value t, and from `two` on the word that has t, and above it g squared.
// `to` and `two` are kept: `SamplesPut` speaks of the whole work area.
fn sample_row(
    work: &mut [i64],
    to: usize,
    two: usize,
    mask: &[u8],
    frame: &[u8],
    omega: u64,
    d: &[u16],
)
    requires { (to + length d.now ≤ two) × (two + length d.now ≤ length work.old) × (length mask.now ≡ length d.now) × (length frame.now ≡ 3 * length d.now) × (omega ≤ 10000)
        × ((x : ℕ) → x < length d.now → get_or d.now x 0 ≤ 10000) }
    ensures { SamplesPut work.old work.new to two (λ x. sample_of omega (masked_at mask.now frame.now x) (get_or d.now x 0)) (length d.now) }
{
    for x in 0..d.len() {
        let m = mask[x];
        let g = guide_of(pixel_at(frame, x));
        let t = coarse_of(omega, d[x] as u64);
        let product = word(g, 16777216, g * t);
        let square = word(t, 268435456, g * g);
        work[to + x] = seen_or(m, product, 0);
        work[two + x] = seen_or(m, square, 0);
    }
}

// Step i of the minimum gives row i - s of the box, from step s on: its samples go to the work area.
fn give_row(
    work: &mut [i64],
    mask: &[u8],
    frame: &[u8],
    v: View,
    i: usize,
    s: usize,
    omega: u64,
    d: &[u16],
)
    requires in_plane { InPlane v × (i < v.tall + s) × (length mask.now ≡ v.w * v.h) × (length frame.now ≡ 3 * (v.w * v.h)) × (2 * (v.wide * v.tall) ≤ length work.old) × (omega ≤ 10000) }
    requires wide_in_bounds { (length d.now ≡ v.wide) × (s ≤ i → (x : ℕ) → x < v.wide → get_or d.now x 0 ≤ 10000) }
    ensures { (l : List ℤ) (S : Plane (Shown Sample)) → SampledTo l work.old v.wide v.tall S (i - s)
        → (s ≤ i → (x : ℕ) → x < v.wide → S (i - s) x ≡ sample_of omega (box_pixels v mask.now frame.now (i - s) x) (get_or d.now x 0))
        → SampledTo l work.new v.wide v.tall S (i + 1 - s) }
{
    if i < s {
        return;
    }
    let y = i - s;
    let from = row_start(v, y);
    let to = from + v.wide;
    let at = y * v.wide;
    sample_row(
        work,
        at,
        v.wide * v.tall + at,
        &mask[from..to],
        &frame[3 * from..3 * to],
        omega,
        d,
    );
}

// The samples of the box, in a work area that may hold anything. Returns the number of comparisons of the minimum.
pub fn prepare(work: &mut [i64], mask: &[u8], frame: &[u8], v: View, k: Settings, a: Rgb) -> usize
    requires given_view { GivenView v k a mask.now frame.now }
    requires tall_in_bounds { 2 * (v.wide * v.tall) ≤ length work.old }
    ensures samples { Sampled work.new v.wide v.tall (box_seen v mask.now)
        (sample (box_of v) k a (box_pixels v mask.now frame.now)) }
    ensures rest { SameFrom work.old work.new (2 * (v.wide * v.tall)) }
    ensures count { result ≡ frame_comparisons (box_of v) k.s }
{
    let w = v.wide;
    let h = v.tall;
    let s = k.s;
    let mut row = [0u16; 1024];
    let row = &mut row[..w];
    let mut p = [0u16; 1024];
    let mut q = [0u16; 1024];
    let mut columns = Columns {
        store: [0u16; 62464],
        ahead: [0u16; 1024],
        h,
        s,
    };
    let mut out = [0u16; 1024];
    let out = &mut out[..w];
    let by = scales_of(a);
    let mut count = 0;
    for i in 0..h + s {
        count += take_row(mask, frame, v, i, s, a, by, row, &mut p[..], &mut q[..]);
        count += columns.down(row, i, out);
        give_row(work, mask, frame, v, i, s, k.omega, out);
    }
    count
}
