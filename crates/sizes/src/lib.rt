// How many seen pixels the windows about a row's pixels have, and their reciprocals, which a table keeps as they are met. The counts slide as the sums do:
// column by column, and along the row of them. Where the columns stay as they are from one row to the next, all stands already. A window without a seen pixel,
// which only a hidden pixel can have, counts as one of size 1: its sums are 0, and nothing is divided by 0.
#![tactic(auto)]

ghost use Rattle.std.specs.Prelude.{◌≡◌, true, ℕ, ◌+◌, ◌-◌, ◌≤◌, ◌<◌, max, length, replicate, get_or, pos, nat_abs};
ghost use Rattle.planes.specs.View.{InPlane, Framed, row_start};
ghost use Rattle.planes.specs.Stage.{box_seen};
ghost use Rattle.sums.specs.Sum.{kept, Columns, Blank, Spannable};
ghost use Rattle.pixel.specs.Over.{Over, parts};
ghost use Rattle.sizes.specs.Bits.{row_ends, row_stands};
ghost use Rattle.sizes.specs.Sizes.{Table, Sizes, Unchanged, Row, shows, bit_plane, bits_of, Count, span_at, Counted, Countable, Inverted};

use pixel::reciprocal;
use planes::{View, row_start, seen_or};
use sums::{Source, advance, begin_of, first};

// ---- the mask

// Whether the n pixels from `at` on and those from `other` on are seen alike. All are looked at: that is quicker than a way out at the first that differs.
fn alike(mask: &[u8], at: usize, other: usize, n: usize) -> bool
    requires { (at + n ≤ length mask.now) × (other + n ≤ length mask.now) }
    ensures { result ≡ true → (i : ℕ) → i < n → shows (get_or mask.now (at + i) 0) ≡ shows (get_or mask.now (other + i) 0) }
{
    let mut same = true;
    for i in 0..n {
        same &= (mask[at + i] == 0) == (mask[other + i] == 0);
    }
    same
}

// ---- the columns

// The box b of a mask, as a plane of ones, for pixels that are seen, and zeros.
#[derive(Clone, Copy)]
pub struct Seen<'a> {
    pub mask: &'a [u8],
    pub b: View,
}

impl<'a> Source for Seen<'a> {
    ghost plane = { λ s. bit_plane s.b s.mask.now };

    ghost wide = { λ s. s.b.wide };

    ghost has_row = { λ s y. Row s.b s.mask.now y };

    ghost entries = { λ s. bits_of s.mask.now };

    ghost place = { λ s y. row_start s.b y };

    ghost ends = { λ s y p. row_ends s.b s.mask.now y p };

    ghost stands = { λ s y x. row_stands s.b s.mask.now y x };

    fn start(self, y: usize) -> usize {
        row_start(self.b, y)
    }

    fn read(self, at: usize, x: usize) -> i64 {
        seen_or(self.mask[at + x], 1, 0)
    }
}

// Whether the columns before row y + 1 of the box are those before row y: one row enters and another leaves, and they are seen alike.
fn unchanged(mask: &[u8], b: View, v: View, r: usize, y: usize) -> bool
    requires { InPlane v × Framed b v mask.now × (r ≤ 60) × (y < v.h) }
    ensures { result ≡ true → Unchanged (box_seen b mask.now) v.w v.h r y }
{
    r < y && y + r < v.h && alike(mask, row_start(b, y + r), row_start(b, y - r - 1), v.w)
}

// ---- the sizes

// A window's size: how many seen pixels it has, at least 1.
fn size_of(n: i64) -> u64
    requires { Count n }
    ensures { result ≡ max 1 (nat_abs n) }
{
    n.max(1) as u64
}

// The sizes of n windows of d columns: of each the sum of the d columns after its place, which is from x on. The running sum is that of `sums`' own loop,
// which runs two at once and keeps them: one loop for both would have to run a second sum here.
fn size_row(cols: &[i64], x: usize, d: usize, n: usize, ns: &mut [u64])
    requires spannable { Spannable cols.now × (d ≤ 121) × (x + n + d ≤ kept) × (n ≤ length ns.old) }
    requires by_index { (i : ℕ) → i < n → Count (span_at cols.now x d i) }
    ensures { Counted cols.now x d n ns.new }
{
    let mut s = first(cols, x, x + d);
    for i in 0..n {
        let a = x + i;
        s += cols[a + d] - cols[a];
        ns[i] = size_of(s);
    }
}

// The reciprocal of n, worked out and kept where it is not known.
fn inverse_of(table: &mut [u64], n: usize) -> u64
    requires { Table table.old × (0 < n) × (n ≤ 14641) }
    ensures table { Table table.new }
    ensures over { Over 1 n parts result }
{
    let known = table[n];
    // 0 stands for a reciprocal that is not known: an Option of a u64 is twice as long.
    if known != 0 {
        return known;
    }
    let k = reciprocal(n as u64);
    table[n] = k;
    k
}

// The reciprocals of the first m sizes.
fn inverse_row(table: &mut [u64], m: usize, ns: &[u64], inverses: &mut [u64])
    requires { Table table.old × Countable m ns.now × (m ≤ length inverses.old) }
    ensures table { Table table.new }
    ensures over { Inverted m ns.now inverses.new }
{
    for i in 0..m {
        inverses[i] = inverse_of(table, ns[i] as usize);
    }
}

// The sizes of the windows of radius r about the pixels of the view's row y, and their reciprocals, with what they are made of: the columns of the mask, and a table
// of the reciprocals that were met.
#[derive(Drop)]
pub struct WindowSizes {
    columns: [i64; 1152],
    table: [u64; 14642],
    pub ns: [u64; 1024],
    pub inverses: [u64; 1024],
    ghost known: { Table table },
}

impl WindowSizes {
    ghost use Rattle.sizes.specs.Before.{SizesBefore, SizesAbout};

    pub fn new() -> Self
        ensures blank { Blank result.columns }
        ensures table { result.table ≡ replicate 14642 0 }
        ensures rows { (result.ns ≡ replicate 1024 0) × (result.inverses ≡ replicate 1024 0) }
    {
        WindowSizes {
            columns: [0; 1152],
            table: [0; 14642],
            ns: [0; 1024],
            inverses: [0; 1024],
        }
    }

    // The columns before the view's first row.
    pub fn begin(&mut self, mask: &[u8], b: View, v: View, r: usize)
        requires { InPlane v × Framed b v mask.now × (r ≤ 60) × Blank self.old.columns }
        ensures before { SizesBefore b v r mask.now 0 self.new }
        ensures table { self.new.table ≡ self.old.table }
        ensures rows { (self.new.ns ≡ self.old.ns) × (self.new.inverses ≡ self.old.inverses) }
    {
        begin_of(&mut self.columns[..], Seen { mask, b }, v, r);
    }

    // The sizes and reciprocals of the view's row y, and the columns from before that row to before the next. Those of the row before are there already.
    pub fn resize(&mut self, mask: &[u8], b: View, v: View, r: usize, y: usize)
        requires in_plane { InPlane v × Framed b v mask.now × (r ≤ 60) × (y < v.tall) }
        requires before { SizesBefore b v r mask.now y self.old }
        ensures before { SizesBefore b v r mask.now (y + 1) self.new }
        ensures about { SizesAbout b v r mask.now y self.new }
    {
        let at = v.top + y;
        if 0 < y && unchanged(mask, b, v, r, at) {
            return;
        }
        advance(&mut self.columns[..], Seen { mask, b }, v, r, at);
        size_row(
            &self.columns[..],
            v.left,
            2 * r + 1,
            v.wide,
            &mut self.ns[..],
        );
        inverse_row(
            &mut self.table[..],
            v.wide,
            &self.ns[..],
            &mut self.inverses[..],
        );
    }
}
