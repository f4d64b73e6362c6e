// The least over windows of 16-bit samples along a row, by blocks (van Herk), with the count of comparisons.
#![tactic(auto)]

ghost use Rattle.std.specs.Prelude.{◌≡◌, cond, ℕ, ◌+◌, ◌-◌, ◌*◌, ◌≤◌, ◌<◌, min, ltb, length, get_or};
ghost use Rattle.rules.specs.Count.{hi, in_blocks, comparisons, samples};
ghost use Rattle.windows.specs.Span.{span, windowed};
ghost use Rattle.windows.specs.Blocks.{start, choose};
ghost use Rattle.windows.specs.Line.{entry, Written, fore, aft, Met};

// A least, and how many comparisons it took.
#[derive(Clone, Copy)]
struct Least {
    value: u16,
    comparisons: usize,
}

// A least that took none.
fn untouched(x: u16) -> Least
    ensures { (result.value ≡ x) × (result.comparisons ≡ 0) }
{
    Least {
        value: x,
        comparisons: 0,
    }
}

// Entry i of p becomes the least of the samples `first` to i, for each i before `end`. Returns the number of comparisons.
fn ahead(line: &[u16], first: usize, end: usize, p: &mut [u16]) -> usize
    requires { (first < end) × (end ≤ length line.now) × (end ≤ length p.old) }
    ensures { (result ≡ end - 1 - first) × Written (span min (entry line.now) first) p.old p.new first end }
{
    // In 32 bits a running least is quicker.
    let mut least = u32::from(line[first]);
    p[first] = line[first];
    let mut count = 0;
    for i in first + 1..end {
        least = least.min(u32::from(line[i]));
        count += 1;
        p[i] = least as u16;
    }
    count
}

// Entry i of q becomes the least of the samples from i to before `end`, for each i from `first` on. Returns the number of comparisons.
// It is not one function with `ahead`: a loop that takes its order from outside is no plainer.
fn behind(line: &[u16], first: usize, end: usize, q: &mut [u16]) -> usize
    requires { (first < end) × (end ≤ length line.now) × (end ≤ length q.old) }
    ensures { (result ≡ end - 1 - first) × Written (λ i. span min (entry line.now) i (end - 1)) q.old q.new first end }
{
    let last = end - 1;
    let mut least = u32::from(line[last]);
    q[last] = line[last];
    let mut count = 0;
    for i in (first..last).rev() {
        least = least.min(u32::from(line[i]));
        count += 1;
        q[i] = least as u16;
    }
    count
}

// The minima of a line's blocks of k: in p from the block's start to each sample, in q from each sample to the block's end.
// Returns the number of comparisons.
fn halves(line: &[u16], k: usize, p: &mut [u16], q: &mut [u16]) -> usize
    requires { (0 < k) × (k ≤ 61) × (length line.now ≤ 1024) × (length line.now ≤ length p.old) × (length line.now ≤ length q.old) }
    ensures { (result ≡ in_blocks k (samples (length line.now))) × ((i : ℕ) → i < length line.now → entry p.new i ≡ fore line.now k i)
        × ((i : ℕ) → i < length line.now → entry q.new i ≡ aft line.now k (length line.now) i) }
{
    let n = line.len();
    let mut count = 0;
    for first in (0..n).step_by(k) {
        let end = (first + k).min(n);
        count += ahead(line, first, end, p);
        count += behind(line, first, end, q);
    }
    count
}

// The last sample of the window of radius s about i, on a line of n.
fn high(i: usize, s: usize, n: usize) -> usize
    requires { i < n }
    ensures { result ≡ hi s n i }
{
    i.saturating_add(s).min(n - 1)
}

// The start of the last block of k, on a line of n.
pub fn last_block(n: usize, k: usize) -> usize
    requires { (0 < n) × (0 < k) }
    ensures { result ≡ start k (n - 1) }
{
    (n - 1) - (n - 1) % k
}

// The least over the window that begins at sample a, from the block minima x at its first sample and y at its last. The last lies in the block that
// starts at c, in the line's first block where a is 0. Only a window in two blocks takes a comparison.
fn pick(x: u16, y: u16, a: usize, c: usize) -> Least
    ensures { (d : ℕ) → (0 < a → d ≡ c) → (a ≡ 0 → d ≡ 0) → (result.value ≡ choose min a d x y) × (result.comparisons ≡ cond (ltb a d) 1 0) }
{
    if a == 0 || a == c {
        return untouched(y);
    }
    if c < a {
        return untouched(x);
    }
    Least {
        value: x.min(y),
        comparisons: 1,
    }
}

// The windows from `from` to before `end`, which are cut off at the line's ends. Returns the number of comparisons.
fn meet_cut(line: &mut [u16], s: usize, p: &[u16], q: &[u16], from: usize, end: usize) -> usize
    requires { (s ≤ 30) × (0 < length line.old) × (length line.old ≤ 1024) × (length line.old ≤ length p.now) × (length line.old ≤ length q.now)
        × (from ≤ end) × (end ≤ length line.old) × ((i : ℕ) → from ≤ i → i < end → s ≤ i → length line.old ≤ i + s) }
    ensures { Met line.old line.new p.now q.now (length line.old) s from end result }
{
    let n = line.len();
    let c = last_block(n, 2 * s + 1);
    let mut count = 0;
    for i in from..end {
        let a = i.saturating_sub(s);
        let least = pick(q[a], p[high(i, s, n)], a, c);
        line[i] = least.value;
        count += least.comparisons;
    }
    count
}

// Whole windows that lie in two blocks: m of them, of which the first begins at a. Returns the number of comparisons.
fn join_run(line: &mut [u16], s: usize, a: usize, m: usize, p: &[u16], q: &[u16]) -> usize
    requires { (a + 2 * s + m ≤ 1024) × (a + s + m ≤ length line.old) × (a + 2 * s + m ≤ length p.now) × (a + 2 * s + m ≤ length q.now) }
    ensures { (result ≡ m) × Written (λ i. min (entry q.now (i - s)) (entry p.now (i + s))) line.old line.new (a + s) (a + s + m) }
{
    let mut count = 0;
    for i in a..a + m {
        line[i + s] = q[i].min(p[i + 2 * s]);
        count += 1;
    }
    count
}

// The whole windows. Returns the number of comparisons.
fn meet_whole(line: &mut [u16], s: usize, p: &[u16], q: &[u16]) -> usize
    requires { (s ≤ 30) × (2 * s < length line.old) × (length line.old ≤ 1024) × (length line.old ≤ length p.now) × (length line.old ≤ length q.now) }
    ensures { Met line.old line.new p.now q.now (length line.old) s s (length line.old - s) result }
{
    let m = line.len() - 2 * s;
    let mut count = 0;
    for a in (0..m).step_by(2 * s + 1) {
        line[a + s] = p[a + 2 * s];
        let some = (m - a - 1).min(2 * s);
        count += join_run(line, s, a + 1, some, p, q);
    }
    count
}

// Each sample becomes the least over its window of radius s, from the block minima p and q. Returns the number of comparisons.
fn meet(line: &mut [u16], s: usize, p: &[u16], q: &[u16]) -> usize
    requires { (s ≤ 30) × (0 < length line.old) × (length line.old ≤ 1024) × (length line.old ≤ length p.now) × (length line.old ≤ length q.now) }
    ensures { Met line.old line.new p.now q.now (length line.old) s 0 (length line.old) result }
{
    let n = line.len();
    if n <= 2 * s {
        return meet_cut(line, s, p, q, 0, n);
    }
    let a = meet_cut(line, s, p, q, 0, s);
    let b = meet_whole(line, s, p, q);
    let c = meet_cut(line, s, p, q, n - s, n);
    a + b + c
}

// Each sample becomes the least over its window of radius s. p and q are scratch. Returns the number of comparisons.
pub fn shrink(line: &mut [u16], s: usize, p: &mut [u16], q: &mut [u16]) -> usize
    requires { (s ≤ 30) × (0 < length line.old) × (length line.old ≤ 1024) × (length line.old ≤ length p.old) × (length line.old ≤ length q.old) }
    ensures mins { (x : ℕ) → x < length line.old → get_or line.new x 0 ≡ windowed min (λ i. get_or line.old i 0) s (length line.old) x }
    ensures count { result ≡ comparisons s (samples (length line.old)) }
{
    if s == 0 {
        return 0;
    }
    let a = halves(line, 2 * s + 1, p, q);
    let b = meet(line, s, p, q);
    a + b
}
