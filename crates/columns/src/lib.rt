// The least over windows of 16-bit samples down the columns of rows that come one at a time, by blocks, with the count of comparisons.
#![tactic(auto)]

ghost use Rattle.std.specs.Prelude.{◌≡◌, ℕ, ◌+◌, ◌-◌, ◌*◌, ◌≤◌, ◌<◌, min, length};
ghost use Rattle.rules.specs.Window.{Plane};
ghost use Rattle.windows.specs.Span.{windowed};
ghost use Rattle.windows.specs.Line.{entry, Written};
ghost use Rattle.columns.specs.Down.{RowIs, Down, Folded, Given, Taken, Rested, down_count};

use planes::copy;
use windows::last_block;

// h rows that go down the columns one at a time, where the columns' windows have radius s: the rows of one block, each behind the one before it, and the least of
// the block so far. What both hold before the first row does not matter. STORE entries have room for the rows of a block, AHEAD for one row.
#[derive(Drop)]
pub struct Columns<const STORE: usize, const AHEAD: usize> {
    pub store: [u16; STORE],
    pub ahead: [u16; AHEAD],
    pub h: usize,
    pub s: usize,
}

// Each entry becomes the lesser of it and the row's. Returns the number of comparisons.
fn extend(least: &mut [u16], row: &[u16]) -> usize
    requires { length least.old ≡ length row.now }
    ensures { (result ≡ length row.now) × Written (λ x. min (entry least.old x) (entry row.now x)) least.old least.new 0 (length row.now) }
{
    let mut count = 0;
    for x in 0..row.len() {
        least[x] = least[x].min(row[x]);
        count += 1;
    }
    count
}

// Entry by entry, the lesser of two rows. Returns the number of comparisons. To copy one and then `extend` it would go over the row twice.
fn both(out: &mut [u16], row: &[u16], other: &[u16]) -> usize
    requires { (length out.old ≡ length row.now) × (length other.now ≡ length row.now) }
    ensures { (result ≡ length row.now) × Written (λ x. min (entry row.now x) (entry other.now x)) out.old out.new 0 (length row.now) }
{
    let mut count = 0;
    for x in 0..row.len() {
        out[x] = row[x].min(other[x]);
        count += 1;
    }
    count
}

// Each row up to `last` becomes the least from it to `last`. Returns the number of comparisons.
// A row's length n stands beside the store, since the store has room for more rows.
fn fold(store: &mut [u16], last: usize, n: usize) -> usize
    requires { last * n + n ≤ length store.old }
    ensures { (result ≡ n * last) × Folded store.old store.new n 0 last }
{
    let mut count = 0;
    for j in (0..last).rev() {
        let (rows, next) = store.split_at_mut((j + 1) * n);
        count += extend(&mut rows[j * n..], &next[..n]);
    }
    count
}

// The row, j-th of its block, is joined to the least of those before it in the block. Returns the number of comparisons.
fn join(ahead: &mut [u16], row: &[u16], j: usize) -> usize
    requires { length row.now ≤ length ahead.old }
    ensures { (result ≡ length row.now * min j 1) × ((x : ℕ) → x < length row.now → j ≡ 0 → entry ahead.new x ≡ entry row.now x)
        × ((x : ℕ) → x < length row.now → 0 < j → entry ahead.new x ≡ min (entry ahead.old x) (entry row.now x)) }
{
    let ahead = &mut ahead[..row.len()];
    if j == 0 {
        copy(ahead, row);
        return 0;
    }
    extend(ahead, row)
}

impl<const STORE: usize, const AHEAD: usize> Columns<STORE, AHEAD> {
    // The rows of a block.
    fn block(&self) -> usize
        requires { self.now.s ≤ 30 }
        ensures { result ≡ 2 * self.now.s + 1 }
    {
        2 * self.s + 1
    }

    // The least over the rows of as many as a block up to row v, j-th of its block, or over all where they are fewer. Returns the number of comparisons.
    fn give(&self, v: usize, j: usize, out: &mut [u16]) -> usize
        requires { (self.now.s ≤ 30) × (j < 2 * self.now.s + 1) × (length out.old ≤ 1024)
            × ((2 * self.now.s + 1) * length out.old ≤ STORE) × (length out.old ≤ AHEAD) }
        ensures { Given self.now.store self.now.ahead out.new v j (2 * self.now.s + 1) (length out.old) result }
    {
        let n = out.len();
        let k = self.block();
        let store = &self.store[..];
        let ahead = &self.ahead[..];
        if v < k || j + 1 == k {
            copy(out, &ahead[..n]);
            return 0;
        }
        let next = (j + 1) * n;
        both(out, &store[next..next + n], &ahead[..n])
    }

    // Row v comes: it is joined to its block, the least over the rows up to it comes out, it is stored, and a whole block is folded.
    // Returns the number of comparisons.
    fn take(&mut self, row: &[u16], v: usize, out: &mut [u16]) -> usize
        requires { (v < self.old.h) × (self.old.h ≤ 1024) × (self.old.s ≤ 30) × (length row.now ≤ 1024) × (length out.old ≡ length row.now)
            × ((2 * self.old.s + 1) * length row.now ≤ STORE) × (length row.now ≤ AHEAD) }
        ensures taken { Taken row.now self.old.store self.old.ahead self.new.store self.new.ahead out.new v self.old.h (length row.now) (2 * self.old.s + 1) result }
        ensures kept { (self.new.h ≡ self.old.h) × (self.new.s ≡ self.old.s) }
    {
        let n = row.len();
        let k = self.block();
        let j = v % k;
        let a = join(&mut self.ahead[..], row, j);
        let b = self.give(v, j, out);
        let store = &mut self.store[..];
        copy(&mut store[j * n..j * n + n], row);
        if j + 1 < k && v + 1 < self.h {
            return a + b;
        }
        a + b + fold(&mut self.store[..], j, n)
    }

    // After the last row: the least over the rows from a on. Returns the number of comparisons.
    fn rest(&self, a: usize, out: &mut [u16]) -> usize
        requires { (a < self.now.h) × (self.now.h ≤ a + 2 * self.now.s + 1) × (self.now.h ≤ 1024) × (self.now.s ≤ 30) × (length out.old ≤ 1024)
            × ((2 * self.now.s + 1) * length out.old ≤ STORE) × (length out.old ≤ AHEAD) }
        ensures { Rested self.now.store self.now.ahead out.new a self.now.h (length out.old) (2 * self.now.s + 1) result }
    {
        let n = out.len();
        let k = self.block();
        let c = last_block(self.h, k);
        let store = &self.store[..];
        let ahead = &self.ahead[..];
        if a == c {
            copy(out, &ahead[..n]);
            return 0;
        }
        if c < a {
            let at = (a - c) * n;
            copy(out, &store[at..at + n]);
            return 0;
        }
        let at = (a + k - c) * n;
        both(out, &store[at..at + n], &ahead[..n])
    }

    // Step v of h + s: row v goes down the columns while there is one, and from step s on the least over the columns' windows about row v - s come out.
    // Returns the number of comparisons.
    pub fn down(&mut self, row: &[u16], v: usize, out: &mut [u16]) -> usize
        requires s_bound { (self.old.s ≤ 30) × (0 < self.old.h) × (self.old.h ≤ 1024) × (v < self.old.h + self.old.s) }
        requires n_in_bounds { (0 < length row.now) × (length row.now ≤ 1024) × (length out.old ≡ length row.now) }
        requires room { ((2 * self.old.s + 1) * length row.now ≤ STORE) × (length row.now ≤ AHEAD) }
        ensures state { (f : Plane ℕ) → Down self.old.store self.old.ahead (length row.now) self.old.s self.old.h f v → (v < self.old.h → RowIs row.now f v (length row.now))
            → Down self.new.store self.new.ahead (length row.now) self.old.s self.old.h f (v + 1) }
        ensures kept { (self.new.h ≡ self.old.h) × (self.new.s ≡ self.old.s) }
        ensures mins { (f : Plane ℕ) → Down self.old.store self.old.ahead (length row.now) self.old.s self.old.h f v → (v < self.old.h → RowIs row.now f v (length row.now))
            → self.old.s ≤ v → RowIs out.new (λ y x. windowed min (λ u. f u x) self.old.s self.old.h y) (v - self.old.s) (length row.now) }
        ensures count { result ≡ length row.now * down_count self.old.s self.old.h v }
    {
        if v < self.h {
            return self.take(row, v, out);
        }
        self.rest(v.saturating_sub(2 * self.s), out)
    }
}
