// The ambient light of a frame: row by row the dark values by the window minimum and a count for each of 257 levels, then the cutoff and the
// brightest candidate. A pixel's level is one more than its dark value, and 0 where it is hidden: so hidden pixels come after all others.
// A level is a number and no `Option`, so that the walk and the counts look at one number a pixel.
#![tactic(auto)]

ghost use Rattle.std.specs.Prelude.{◌≡◌, cond, ◌&&◌, ◌||◌, List, ℕ, ◌+◌, ◌-◌, ◌*◌, ◌/◌, ◌≤◌, ◌<◌, max, ltb, eqb, length, get_or, ℤ, pos};
ghost use Rattle.rules.specs.Shape.{described};
ghost use Rattle.rules.specs.Light.{darkest, lifted, guide};
ghost use Rattle.rules.specs.Buffers.{pixel_at};
ghost use Rattle.rules.specs.Count.{frame_comparisons};
ghost use Rattle.rules.specs.Good.{GoodSize, AcceptedLight};
ghost use Rattle.planes.specs.Cells.{SameFrom};
ghost use Rattle.columns.specs.Down.{RowIs, along_count};
ghost use Rattle.light.specs.Steps.{value, least_by, level_by, Levels, Starts, Below, hits, lane, Few, joined, at_least, CutAt, next, Walked, Walkable, Chosen, Topped, least_along, RowPut, DarkTo, Darkened, Picked, Finds};

use rules::{Finding, Rgb, Settings, Size};

// The cutoff of the levels, and how many pixels at it are let in.
#[derive(Clone, Copy)]
struct Cut {
    value: usize,
    ties: usize,
}

// The candidate that leads: its position, and one more than its guide, or 0 before the first.
// No `Option`: a candidate costs one compare, and the walk's end owes no answer for none.
#[derive(Clone, Copy)]
struct Leader {
    place: usize,
    top: u64,
}

// A walk over the positions: the candidate that leads, and how many have been seen at the cutoff.
#[derive(Clone, Copy)]
struct Walk {
    leader: Leader,
    seen: usize,
}

// The light that the pixel at p gives: a channel of 0 becomes 1.
fn colour(frame: &[u8], p: usize) -> Rgb
    requires { 3 * p + 3 ≤ length frame.now }
    ensures { result ≡ lifted (pixel_at frame.now p) }
{
    let i = pixel::pixel_at(frame, p);
    let r = i.r.max(1);
    let g = i.g.max(1);
    let b = i.b.max(1);
    Rgb { r, g, b }
}

// The least bytes of a row of pixels. A hidden pixel has 255, which lowers no minimum.
fn least_row(row: &mut [u16], mask: &[u8], frame: &[u8])
    requires { (length mask.now ≡ length row.old) × (length frame.now ≡ 3 * length row.old) }
    ensures { (x : ℕ) → x < length row.old → get_or row.new x 0 ≡ least_by (get_or mask.now x 0) (darkest (pixel_at frame.now x)) }
{
    for x in 0..row.len() {
        let least = pixel::darkest_of(pixel::pixel_at(frame, x)) as u16;
        row[x] = planes::seen_or(mask[x], least, 255);
    }
}

// Step i of the minimum has row i of the frame, if there is one: its least bytes, each over its window along the row. Returns the number of comparisons.
fn take_row(
    mask: &[u8],
    frame: &[u8],
    z: Size,
    i: usize,
    s: usize,
    row: &mut [u16],
    p: &mut [u16],
    q: &mut [u16],
) -> usize
    requires good_size { GoodSize (described z) × (s ≤ 30) × (length mask.now ≡ z.w * z.h) × (length frame.now ≡ 3 * (z.w * z.h)) }
    requires row_len { (length row.old ≡ z.w) × (length p.old ≡ 1024) × (length q.old ≡ 1024) }
    ensures mins { i < z.h → RowIs row.new (least_along (described z) s mask.now frame.now) i z.w }
    ensures count { result ≡ along_count s z.w z.h i }
{
    let w = z.w;
    let h = z.h;
    if h <= i {
        return 0;
    }
    let from = i * w;
    let to = from + w;
    least_row(row, &mask[from..to], &frame[3 * from..3 * to]);
    windows::shrink(row, s, p, q)
}

// The levels of a row of pixels, from their dark values d.
fn level_row(levels: &mut [u16], mask: &[u8], d: &[u16])
    requires { (length mask.now ≡ length levels.old) × (length d.now ≡ length levels.old) × ((x : ℕ) → x < length d.now → get_or d.now x 0 ≤ 255) }
    ensures { (x : ℕ) → x < length levels.old → get_or levels.new x 0 ≡ level_by (get_or mask.now x 0) (get_or d.now x 0) }
{
    for x in 0..levels.len() {
        levels[x] = planes::seen_or(mask[x], d[x] + 1, 0);
    }
}

// A row's levels d go to the work area, from `to` on.
// `to` is kept: `RowPut` speaks of the whole work area. A level widens as it goes, so no copy of a slice serves.
fn store_row(work: &mut [i64], to: usize, d: &[u16])
    requires { to + length d.now ≤ length work.old }
    ensures { RowPut work.old work.new to (λ x. get_or d.now x 0) (length d.now) }
{
    for x in 0..d.len() {
        work[to + x] = d[x] as i64;
    }
}

// A row's levels d, of the positions from `first` on, are counted. Each level has four lanes, and neighbours are counted in different ones, so that
// equal neighbours do not wait for each other. Not inlined, since among a row's other loops its bound finds no register (measured: 7 % of the call).
#[inline(never)]
fn tally_row(d: &[u16], first: usize, apart: &mut [u32])
    requires { (first + length d.now ≤ 262144) × ((x : ℕ) → x < length d.now → get_or d.now x 0 ≤ 256) × (length apart.old ≡ 1028) × Below first apart.old }
    ensures { (D : ℕ → ℕ) → Starts (hits (lane D) first) 1028 apart.old → ((x : ℕ) → x < length d.now → get_or d.now x 0 ≡ D (first + x))
        → Starts (hits (lane D) (first + length d.now)) 1028 apart.new }
{
    for x in 0..d.len() {
        let i = 4 * (d[x] as usize) + (first + x) % 4;
        apart[i] += 1;
    }
}

// The greatest level.
fn greatest(d: &[u16]) -> u16
    ensures { (x : ℕ) → x < length d.now → get_or d.now x 0 ≤ result }
{
    let mut greatest = 0u16;
    for level in d {
        greatest = greatest.max(*level);
    }
    greatest
}

// Step i of the minimum gives row i - s of the frame, from step s on: its levels are stored and counted, and the greatest is noted.
fn give_row(
    work: &mut [i64],
    mask: &[u8],
    z: Size,
    i: usize,
    s: usize,
    d: &[u16],
    levels: &mut [u16],
    apart: &mut [u32],
    tops: &mut [u16],
)
    requires good_size { GoodSize (described z) × (i < z.h + s) × (z.w * z.h ≤ length work.old) × (length mask.now ≡ z.w * z.h) × (length levels.old ≡ z.w) × (length apart.old ≡ 1028) × (length tops.old ≡ 1024) }
    requires w_in_bounds { (length d.now ≡ z.w) × (s ≤ i → (x : ℕ) → x < z.w → get_or d.now x 0 ≤ 255) × Below ((i - s) * z.w) apart.old }
    ensures { (D : ℕ → ℕ) (l : List ℤ) → DarkTo (described z) D l work.old apart.old tops.old (i - s)
        → (s ≤ i → (x : ℕ) → x < z.w → level_by (get_or mask.now ((i - s) * z.w + x) 0) (get_or d.now x 0) ≡ D ((i - s) * z.w + x))
        → DarkTo (described z) D l work.new apart.new tops.new (i + 1 - s) }
{
    if i < s {
        return;
    }
    let w = z.w;
    let y = i - s;
    let first = y * w;
    level_row(levels, &mask[first..first + w], d);
    store_row(work, first, levels);
    tally_row(levels, first, apart);
    tops[y] = greatest(levels);
}

// The level of each pixel, at the work area's start, with the counts in their lanes, all 0 before, and a bound of each row. Returns the number of comparisons
// of the minimum.
fn darks(
    z: Size,
    k: Settings,
    mask: &[u8],
    frame: &[u8],
    work: &mut [i64],
    apart: &mut [u32],
    tops: &mut [u16],
) -> usize
    requires { AcceptedLight z k mask.now (length frame.now) (length work.old) × (length apart.old ≡ 1028) × (length tops.old ≡ 1024) × Starts (λ v. 0) 1028 apart.old }
    ensures dark { Darkened z k mask.now frame.now work.new apart.new tops.new }
    ensures rest { SameFrom work.old work.new (z.w * z.h) }
    ensures count { result ≡ frame_comparisons (described z) k.s }
{
    let w = z.w;
    let h = z.h;
    let s = k.s;
    let mut row = [0u16; 1024];
    let row = &mut row[..w];
    let mut p = [0u16; 1024];
    let mut q = [0u16; 1024];
    let mut columns = columns::Columns {
        store: [0u16; 62464],
        ahead: [0u16; 1024],
        h,
        s,
    };
    let mut out = [0u16; 1024];
    let out = &mut out[..w];
    let mut levels = [0u16; 1024];
    let levels = &mut levels[..w];
    let mut count = 0;
    for i in 0..h + s {
        count += take_row(mask, frame, z, i, s, row, &mut p[..], &mut q[..]);
        count += columns.down(row, i, out);
        give_row(work, mask, z, i, s, out, levels, apart, tops);
    }
    count
}

// The level at p.
fn level(work: &[i64], p: usize) -> usize
    requires { (p < length work.now) × (get_or work.now p (pos 0) ≡ pos (value work.now p)) × (value work.now p ≤ 256) }
    ensures { result ≡ value work.now p }
{
    work[p] as usize
}

// What the four lanes of v hold together.
fn together(apart: &[u32], v: usize) -> u32
    requires { (length apart.now ≡ 1028) × (v < 257) × Few apart.now }
    ensures { result ≡ joined apart.now v }
{
    let i = 4 * v;
    apart[i] + apart[i + 1] + apart[i + 2] + apart[i + 3]
}

// The count of each level, from its four lanes.
fn join(apart: &[u32], counts: &mut [u32])
    requires { (length apart.now ≡ 1028) × (length counts.old ≡ 257) × Few apart.now }
    ensures { Starts (joined apart.now) 257 counts.new }
{
    for v in 0..257 {
        counts[v] = together(apart, v);
    }
}

// The greatest value that at least m pixels are at or above, and 0 if no greater one is. 257 counts of 32 bits say less than 2^41.
fn cutoff(counts: &[u32], m: usize) -> Cut
    requires { (0 < length counts.now) × (length counts.now ≤ 257) × (0 < m) × (m ≤ 1099511627776) × (m ≤ at_least counts.now 0) }
    ensures { CutAt counts.now m result }
{
    let mut above = 0;
    for v in (1..counts.len()).rev() {
        let next = above + counts[v] as usize;
        if m <= next {
            return Cut {
                value: v,
                ties: m - above,
            };
        }
        above = next;
    }
    Cut {
        value: 0,
        ties: m - above,
    }
}

// Whether a pixel of level d is a candidate, after `seen` at the cutoff.
fn admits(d: usize, cut: usize, seen: usize, ties: usize) -> bool
    ensures { result ≡ (ltb cut d || (eqb cut d && ltb seen ties)) }
{
    cut < d || cut == d && seen < ties
}

// How many have been seen at the cutoff, with a pixel of level d.
fn seen_now(d: usize, cut: usize, seen: usize) -> usize
    requires { seen < 4294967295 }
    ensures { result ≡ seen + cond (eqb cut d) 1 0 }
{
    if cut == d { seen + 1 } else { seen }
}

// The guide of the pixel at p.
fn guide_at(frame: &[u8], p: usize) -> u64
    requires { 3 * p + 3 ≤ length frame.now }
    ensures { (result ≡ guide (pixel_at frame.now p)) × (result ≤ 765) }
{
    pixel::guide_of(pixel::pixel_at(frame, p))
}

// A brighter candidate takes the lead, an equal one does not. The pixel at p is looked at only if it is a candidate.
fn better(b: Leader, ok: bool, frame: &[u8], p: usize) -> Leader
    requires { 3 * p + 3 ≤ length frame.now }
    ensures { result ≡ next b ok p (guide (pixel_at frame.now p)) }
{
    if !ok {
        return b;
    }
    let g = guide_at(frame, p);
    if b.top <= g {
        return Leader {
            place: p,
            top: g + 1,
        };
    }
    b
}

// The walk goes on over the n positions from `first` on.
fn walk_row(frame: &[u8], work: &[i64], first: usize, n: usize, cut: Cut, b: Walk) -> Walk
    requires { Walkable frame.now work.now cut first n b }
    ensures { Walked frame.now work.now cut (first + n) result }
{
    let value = cut.value;
    let ties = cut.ties;
    let mut leader = b.leader;
    let mut seen = b.seen;
    for p in first..first + n {
        let d = level(work, p);
        let ok = admits(d, value, seen, ties);
        leader = better(leader, ok, frame, p);
        seen = seen_now(d, value, seen);
    }
    Walk { leader, seen }
}

// A row whose greatest level, `top`, is below the cutoff has no candidate and is passed over.
fn choose_row(
    frame: &[u8],
    work: &[i64],
    first: usize,
    n: usize,
    cut: Cut,
    top: u16,
    b: Walk,
) -> Walk
    requires walkable { Walkable frame.now work.now cut first n b }
    requires by_index { (x : ℕ) → x < n → value work.now (first + x) ≤ top }
    ensures { Walked frame.now work.now cut (first + n) result }
{
    if (top as usize) < cut.value {
        return b;
    }
    walk_row(frame, work, first, n, cut, b)
}

// The position of the brightest candidate, the first on a tie. `tops` has a bound of each row's levels.
fn choose(frame: &[u8], work: &[i64], z: Size, cut: Cut, tops: &[u16]) -> usize
    requires good_size { GoodSize (described z) × (3 * (z.w * z.h) ≤ length frame.now) × (z.w * z.h ≤ length work.now) × Levels (z.w * z.h) work.now }
    requires h_in_bounds { (z.h ≤ length tops.now) × Topped (value work.now) z.w z.h tops.now }
    ensures { Chosen frame.now work.now (z.w * z.h) cut result }
{
    let w = z.w;
    let h = z.h;
    let mut b = Walk {
        leader: Leader { place: 0, top: 0 },
        seen: 0,
    };
    for y in 0..h {
        b = choose_row(frame, work, y * w, w, cut, tops[y], b);
    }
    b.leader.place
}

// How many candidates there are.
fn candidates(n: usize, share: u64) -> usize
    requires { (n ≤ 262144) × (share ≤ 1000) }
    ensures { result ≡ max 1 (n * share / 1000) }
{
    (n * (share as usize) / 1000).max(1)
}

// The position of the pixel that gives the light, from the levels, their counts and their bounds.
fn pick(
    z: Size,
    k: Settings,
    mask: &[u8],
    frame: &[u8],
    work: &[i64],
    apart: &[u32],
    tops: &[u16],
) -> usize
    requires { AcceptedLight z k mask.now (length frame.now) (length work.now) × (length apart.now ≡ 1028) × (length tops.now ≡ 1024)
        × Darkened z k mask.now frame.now work.now apart.now tops.now }
    ensures { Picked z k mask.now frame.now result }
{
    let mut counts = [0u32; 257];
    join(apart, &mut counts[..]);
    let n = z.w * z.h;
    let seen = n - counts[0] as usize;
    let m = candidates(seen, k.share);
    let cut = cutoff(&counts[..], m);
    choose(frame, work, z, cut, tops)
}

// The light of a frame and the comparisons of the minimum, for a call that is not refused. The work area is wiped.
pub fn find(z: Size, k: Settings, mask: &[u8], frame: &[u8], work: &mut [i64]) -> Finding
    requires { AcceptedLight z k mask.now (length frame.now) (length work.old) }
    ensures { Finds z k mask.now frame.now work.old result work.new }
{
    let w = z.w;
    let h = z.h;
    let mut apart = [0u32; 1028];
    let mut tops = [0u16; 1024];
    let count = darks(z, k, mask, frame, work, &mut apart[..], &mut tops[..]);
    let p = pick(z, k, mask, frame, &work[..], &apart[..], &tops[..]);
    planes::wipe(work, 8 * ((w + 1) * (h + 1)));
    Finding {
        light: colour(frame, p),
        comparisons: count as u64,
    }
}
