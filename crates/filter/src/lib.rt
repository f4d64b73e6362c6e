// The guided filter over a box: from samples to lines. A hidden pixel has no line: 0 stands for its slope and for its offset.
#![tactic(auto)]

ghost use Rattle.std.specs.Prelude.{◌≡◌, ◌+◌, ◌*◌, ◌≤◌, ◌<◌, length, set, nat_abs};
ghost use Rattle.rules.specs.Window.{Plane, Shown};
ghost use Rattle.rules.specs.Transmission.{Sample};
ghost use Rattle.rules.specs.Box.{part};
ghost use Rattle.planes.specs.View.{InPlane, Framed, row_start};
ghost use Rattle.planes.specs.Cells.{SameFrom};
ghost use Rattle.planes.specs.Stage.{Sampled, Sampling, Lined, box_seen};
ghost use Rattle.filter.specs.Fit.{fitted};
ghost use Rattle.pixel.specs.Over.{Over, parts};
ghost use Rattle.filter.specs.Row.{RowIn, WordMoments, word_line, row_line, RowLines};

use pixel::{offset, slope};
use planes::{View, row_start};
use sizes::WindowSizes;
use sums::SquareSums;

// A line: its slope at place s, its offset at place o.
fn put_line(work: &mut [i64], s: usize, o: usize, a: i64, b: i64)
    requires { (s < length work.old) × (o < length work.old) }
    ensures { work.new ≡ set (set work.old s a) o b }
{
    work[s] = a;
    work[o] = b;
}

// The line of a pixel, from the sums u and v of both words over its window of n pixels.
fn fit_pixel(work: &mut [i64], s: usize, o: usize, n: u64, inverse: u64, u: u64, v: u64, e: u64)
    requires { (s < length work.old) × (o < length work.old) × WordMoments n u v × Over 1 n parts inverse × (0 < e) × (e ≤ 585225) }
    ensures line { work.new ≡ set (set work.old s (word_line n u v e).a) o (word_line n u v e).b }
    ensures small { (nat_abs (word_line n u v e).a ≤ 2560000) × (nat_abs (word_line n u v e).b ≤ 2147483648) }
{
    let sg = u % 16777216;
    let st = v % 268435456;
    let a = slope(n, sg, st, v / 268435456, u / 16777216, e);
    let b = offset(n, inverse, sg, st, a);
    put_line(work, s, o, a, b);
}

// The lines of the pixels of a part of the mask, from the sums of both words over their windows: slopes from `slopes` on, offsets from `offsets` on. Nothing is
// divided for a hidden pixel.
fn fit_row(
    work: &mut [i64],
    slopes: usize,
    offsets: usize,
    sums: &SquareSums,
    sizes: &WindowSizes,
    e: u64,
    mask: &[u8],
)
    requires { RowIn work.old slopes offsets (length mask.now) sums.now.first sums.now.second sizes.now.ns sizes.now.inverses mask.now 0 × (0 < e) × (e ≤ 585225) }
    ensures { RowLines work.old work.new slopes offsets (length mask.now) (row_line sums.now.first sums.now.second sizes.now.ns e mask.now 0) }
{
    for i in 0..mask.len() {
        if mask[i] == 0 {
            put_line(work, slopes + i, offsets + i, 0, 0);
        } else {
            let u = sums.first[i] as u64;
            let v = sums.second[i] as u64;
            fit_pixel(
                work,
                slopes + i,
                offsets + i,
                sizes.ns[i],
                sizes.inverses[i],
                u,
                v,
                e,
            );
        }
    }
}

// The place in the mask of the view's first own pixel of row y: the view's plane is the box b of the frame.
fn own_place(b: View, v: View, y: usize) -> usize
    requires { InPlane b × InPlane v × (b.wide ≡ v.w) × (b.tall ≡ v.h) × (y < v.tall) }
    ensures { result ≡ row_start b (v.top + y) + v.left }
{
    row_start(b, v.top + y) + v.left
}

// The lines of the view's pixels, from the samples of its plane, which is the box b of the frame: slopes and offsets go behind the samples, two planes of the
// view's size.
pub fn fit(work: &mut [i64], mask: &[u8], b: View, v: View, r: usize, e: u64)
    requires in_plane { InPlane v × Framed b v mask.now × (r ≤ 60) × (0 < e) × (e ≤ 585225) }
    requires sampling { Sampling work.old v.w v.h (box_seen b mask.now) × (2 * (v.w * v.h) + 2 * (v.wide * v.tall) ≤ length work.old) }
    ensures lines { (S : Plane (Shown Sample)) → Sampled work.old v.w v.h (box_seen b mask.now) S
        → Lined work.new (2 * (v.w * v.h)) v.wide v.tall (part v.top v.left (box_seen b mask.now)) (part v.top v.left (fitted v.w v.h r e S)) }
    ensures rest { SameFrom work.old work.new (2 * (v.w * v.h) + 2 * (v.wide * v.tall)) }
{
    let plane = v.w * v.h;
    let slopes = 2 * plane;
    let offsets = slopes + v.wide * v.tall;
    let mut sizes = WindowSizes::new();
    let mut sums = SquareSums::new();
    sizes.begin(mask, b, v, r);
    let words = &work[..];
    sums.begin(words, &words[plane..], v, r);
    for y in 0..v.tall {
        sizes.resize(mask, b, v, r, y);
        let words = &work[..];
        sums.next(words, &words[plane..], v, r, y);
        let row = y * v.wide;
        let at = own_place(b, v, y);
        let own = &mask[at..at + v.wide];
        fit_row(work, slopes + row, offsets + row, &sums, &sizes, e, own);
    }
}
