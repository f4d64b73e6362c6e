// Sums over squares that slide: the sums of the squares' rows, column by column, kept from one row of the box to the next, and along the row of them.
#![tactic(auto)]

ghost use Rattle.std.specs.Prelude.{◌≡◌, List, ℕ, ◌+◌, ◌*◌, ◌≤◌, ◌<◌, length, replicate, get_or, ℤ, pos};
ghost use Rattle.rules.specs.Window.{Plane};
ghost use Rattle.planes.specs.Cells.{cells};
ghost use Rattle.sums.specs.Sum.{Summable, Readable, Blank, Columns, RowSums, kept, entry, range_sum, RowIn, Rewritten, entered, left, slid, Spannable, Spans, cells_row};

use planes::View;

// ---- what is summed

// A plane of integers, whose rows stand in a list.
pub trait Source {
    // The plane, its width, and which of its rows can be read.
    ghost plane: { Self → Plane ℤ };

    ghost wide: { Self → ℕ };

    ghost has_row: { Self → ℕ → Type 0 };

    // The list, and the place where row y begins in it.
    ghost entries: { Self → List ℤ };

    ghost place: { Self → ℕ → ℕ };

    fn start(self, y: usize) -> usize
        requires { has_row self y }
        ensures { result ≡ place self y };

    // The entry that is x places after place `at`.
    fn read(self, at: usize, x: usize) -> i64
        requires { at + x < length (entries self) }
        ensures { result ≡ get_or (entries self) (at + x) (pos 0) };

    // A row ends in the list, and is the plane's.
    ghost ends: { (s : Self) (y : ℕ) → has_row s y → place s y + wide s ≤ length (entries s) };

    ghost stands: { (s : Self) (y x : ℕ) → get_or (entries s) (place s y + x) (pos 0) ≡ plane s y x };
}

// A plane at the front of lent values.
#[derive(Clone, Copy)]
pub struct Values<'a> {
    pub values: &'a [i64],
    pub w: usize,
}

impl<'a> Source for Values<'a> {
    ghost plane = { λ s. cells s.values.now 0 s.w };

    ghost wide = { λ s. s.w };

    ghost has_row = { λ s y. y * s.w + s.w ≤ length s.values.now };

    ghost entries = { λ s. s.values.now };

    ghost place = { λ s y. y * s.w };

    ghost ends = { λ s y p. p };

    ghost stands = { λ s y x. cells_row s.values.now s.w y x };

    fn start(self, y: usize) -> usize {
        y * self.w
    }

    fn read(self, at: usize, x: usize) -> i64 {
        self.values[at + x]
    }
}

// ---- a row more, or a row less

// Three loops: with one that is given the step as a closure, what its calls ask of a generic source was tried, and the proof did not close.

// The n columns from place `to` on take in the n values from place `at` on.
fn enter<S: Source + Copy>(cols: &mut [i64], to: usize, source: S, at: usize, n: usize)
    requires { RowIn cols.old to (S.entries source) at n }
    ensures { Rewritten cols.old cols.new to n (entered cols.old to (S.entries source) at) }
{
    for i in 0..n {
        cols[to + i] += source.read(at, i);
    }
}

// The n columns from place `to` on let out the n values from place `at` on.
fn leave<S: Source + Copy>(cols: &mut [i64], to: usize, source: S, at: usize, n: usize)
    requires { RowIn cols.old to (S.entries source) at n }
    ensures { Rewritten cols.old cols.new to n (left cols.old to (S.entries source) at) }
{
    for i in 0..n {
        cols[to + i] -= source.read(at, i);
    }
}

// The n columns from place `to` on take in the n values from place `at` on and let out those from place `old` on.
fn slide<S: Source + Copy>(cols: &mut [i64], to: usize, source: S, at: usize, old: usize, n: usize)
    requires { RowIn cols.old to (S.entries source) at n × RowIn cols.old to (S.entries source) old n }
    ensures { Rewritten cols.old cols.new to n (slid cols.old to (S.entries source) at old) }
{
    for i in 0..n {
        cols[to + i] = cols[to + i] + source.read(at, i) - source.read(old, i);
    }
}

// The columns before the box's first row. They hold 0 before.
pub fn begin_of<S: Source + Copy>(cols: &mut [i64], source: S, v: View, r: usize)
    requires { Readable (S.plane source) (S.wide source) (S.has_row source) v r × Blank cols.old }
    ensures { Columns cols.new (S.plane source) v.w v.h r v.top }
{
    let end = (v.top + r).min(v.h);
    for y in v.top.saturating_sub(r + 1)..end {
        enter(cols, r + 1, source, source.start(y), v.w);
    }
}

// The columns from before row y of the plane to before the next: a row enters unless it is below the plane, and one leaves unless it is above it.
pub fn advance<S: Source + Copy>(cols: &mut [i64], source: S, v: View, r: usize, y: usize)
    requires readable { Readable (S.plane source) (S.wide source) (S.has_row source) v r × (y < v.h) }
    requires columns { Columns cols.old (S.plane source) v.w v.h r y }
    ensures { Columns cols.new (S.plane source) v.w v.h r (y + 1) }
{
    if v.h <= y + r {
        if r < y {
            leave(cols, r + 1, source, source.start(y - r - 1), v.w);
        }
        return;
    }
    if y <= r {
        enter(cols, r + 1, source, source.start(y + r), v.w);
        return;
    }
    slide(
        cols,
        r + 1,
        source,
        source.start(y + r),
        source.start(y - r - 1),
        v.w,
    );
}

// ---- along the row

// The sum of the columns from place `from` to before place `end`.
pub fn first(cols: &[i64], from: usize, end: usize) -> i64
    requires { Spannable cols.now × (from ≤ end) × (end ≤ from + 121) × (end ≤ kept) }
    ensures { result ≡ range_sum (entry cols.now) from end }
{
    let mut s: i64 = 0;
    for i in from..end {
        s += cols[i];
    }
    s
}

// Of each of n places from x on, the sum of the d columns after it, in both of two rows of columns.
fn across(
    cols: &[i64],
    other: &[i64],
    x: usize,
    d: usize,
    n: usize,
    out: &mut [i64],
    second: &mut [i64],
)
    requires { Spannable cols.now × Spannable other.now × (d ≤ 121) × (x + n + d ≤ kept) × (n ≤ length out.old) × (n ≤ length second.old) }
    ensures { Spans out.new cols.now x d n × Spans second.new other.now x d n }
{
    let mut s = first(cols, x, x + d);
    let mut t = first(other, x, x + d);
    for i in 0..n {
        let a = x + i;
        s += cols[a + d] - cols[a];
        t += other[a + d] - other[a];
        out[i] = s;
        second[i] = t;
    }
}

// ---- two planes

// The sums over the squares about the pixels of a row, of two planes at once, with what they are made of: the columns of both.
#[derive(Drop)]
pub struct SquareSums {
    first_columns: [i64; 1152],
    second_columns: [i64; 1152],
    pub first: [i64; 1024],
    pub second: [i64; 1024],
}

impl SquareSums {
    ghost use Rattle.sums.specs.Before.{SumsBefore, SumsAbout};

    pub fn new() -> Self
        ensures blank { Blank result.first_columns × Blank result.second_columns }
        ensures rows { (result.first ≡ replicate 1024 (pos 0)) × (result.second ≡ replicate 1024 (pos 0)) }
    {
        SquareSums {
            first_columns: [0; 1152],
            second_columns: [0; 1152],
            first: [0; 1024],
            second: [0; 1024],
        }
    }

    // The columns before the box's first row, of planes at the front of lent values.
    pub fn begin(&mut self, plane: &[i64], other: &[i64], v: View, r: usize)
        requires { Summable plane.now v r × Summable other.now v r × Blank self.old.first_columns × Blank self.old.second_columns }
        ensures before { SumsBefore v r plane.now other.now 0 self.new }
        ensures rows { (self.new.first ≡ self.old.first) × (self.new.second ≡ self.old.second) }
    {
        let w = v.w;
        let one = Values { values: plane, w };
        let two = Values { values: other, w };
        begin_of(&mut self.first_columns[..], one, v, r);
        begin_of(&mut self.second_columns[..], two, v, r);
    }

    // The sums of the box's row y, and the columns from before that row to before the next. In one pass along the row the two running sums do not wait for each other.
    pub fn next(&mut self, plane: &[i64], other: &[i64], v: View, r: usize, y: usize)
        requires summable { Summable plane.now v r × Summable other.now v r × (y < v.tall) }
        requires before { SumsBefore v r plane.now other.now y self.old }
        ensures before { SumsBefore v r plane.now other.now (y + 1) self.new }
        ensures about { SumsAbout v r plane.now other.now y self.new }
    {
        let w = v.w;
        let one = Values { values: plane, w };
        let two = Values { values: other, w };
        advance(&mut self.first_columns[..], one, v, r, v.top + y);
        advance(&mut self.second_columns[..], two, v, r, v.top + y);
        across(
            &self.first_columns[..],
            &self.second_columns[..],
            v.left,
            2 * r + 1,
            v.wide,
            &mut self.first[..],
            &mut self.second[..],
        );
    }
}
