// Relative depth from transmission: how many steps of one hundredth lead from 1 down to it.
#![tactic(auto)]

mod thresholds;

ghost use Rattle.std.specs.Prelude.{◌≡◌, map as each, ℕ, ◌≤◌, length, get_or};
ghost use Rattle.rules.specs.Answers.{or};
ghost use Rattle.depth.specs.Table.{depth_of, every_depth};
ghost use Rattle.depth.specs.Promise.{refuse_depths, Depths};

use judge::{wrong_entries, wrong_map, wrong_size};
use rules::{Refusal, Size};
use thresholds::{Table, stored};

// The depth of one entry: the first place of the table whose entry is at most 100,000 t, its length where there is none. The table only falls, so it is found by
// halves.
fn depth_by(table: &Table, t: u16) -> u16
    ensures { result ≡ depth_of t }
{
    let bound = 100000 * u64::from(t);
    table.entries.partition_point(|x| u64::from(*x) > bound) as u16
}

// The depth of t, walked to from a number that is no less: of many t in a row, each begins where the one before it ended.
fn fallen(table: &Table, t: usize, from: usize) -> usize
    requires { (t ≤ 10000) × (depth_of t ≤ from) × (from ≤ 918) }
    ensures { result ≡ depth_of t }
{
    let bound = 100000 * (t as u64);
    for at in (0..from).rev() {
        if u64::from(table.entries[at]) > bound {
            return at + 1;
        }
    }
    0
}

// The depth of each t from 0 to 10,000. More transmission never means more depth, so the table is walked once, from its end.
fn fill(table: &Table, every: &mut [u16])
    requires { length every.old ≡ 10001 }
    ensures { every.new ≡ every_depth }
{
    let mut d = table.entries.len();
    for (t, place) in every.iter_mut().enumerate() {
        d = fallen(table, t, d);
        *place = d as u16;
    }
}

// The depth of every entry of a map: one look each.
fn write(every: &[u16], map: &[u16], out: &mut [u16])
    requires every_value { (every.now ≡ every_depth) × (length map.now ≡ length out.old) }
    requires by_index { (p : ℕ) → get_or map.now p 0 ≤ 10000 }
    ensures { out.new ≡ each depth_of map.now }
{
    for (p, t) in map.iter().enumerate() {
        out[p] = every[usize::from(*t)];
    }
}

// 1, 4 for either length, 8.
#[tactic(auto, unfolding(crate::specs::Promise::refuse_depths))]
fn refuse(z: Size, map: &[u16], out: usize) -> Result<(), Refusal>
    ensures { result ≡ or (refuse_depths z map.now out) tt }
{
    judge::refuse(wrong_size(z), Refusal::Size)?;
    judge::refuse(wrong_map(z, map.len()) || wrong_map(z, out), Refusal::Loan)?;
    judge::refuse(wrong_entries(map), Refusal::Entry)
}

// Depth of one entry, for every t.
pub fn depth(t: u16) -> u16
    ensures { result ≡ depth_of t }
{
    let table = stored();
    depth_by(&table, t)
}

// Depths of a whole map.
pub fn depths(z: Size, map: &[u16], out: &mut [u16]) -> Result<(), Refusal>
    ensures { Depths z map.now out.old result out.new }
{
    refuse(z, map, out.len())?;
    let table = stored();
    let mut every = [0; 10001];
    fill(&table, &mut every);
    write(&every, map, out);
    Ok(())
}
