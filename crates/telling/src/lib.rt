// Tells what a call answered, in words, and what a buffer holds.
#![tactic(auto)]

use rules::{Band, Finding, Refusal};
use std::io;
use std::io::Write;

// ---- what a buffer holds

// The digest h with one number more.
fn with_number(h: u64, number: u64) -> u64 {
    (h % 4294967291 * 1000003 + number % 4294967291 + 1) % 4294967291
}

// How many entries there are, the entries themselves where they are few, and a digest of all of them in order. An entry counts as the number of it.
fn say_all<T: Copy, F: Fn(T) -> u64>(
    out: &mut impl Write,
    entries: &[T],
    number_of: F,
) -> io::Result<()>
    requires { F.IsAlwaysCallable number_of }
{
    write!(out, "; {}", entries.len())?;
    let mut digest = 0;
    for entry in entries {
        let number = number_of(*entry);
        if entries.len() <= 12 {
            write!(out, " {number}")?;
        }
        digest = with_number(digest, number);
    }
    write!(out, " {digest}")
}

// The number of an entry of the work area, as it goes into the digest: it tells apart 0, the four numbers that the area is filled with, and any other.
fn kind(entry: i64) -> u64 {
    match entry {
        0 => 0,
        i64::MIN => 1,
        i64::MAX => 2,
        -1 => 3,
        1 => 4,
        _ => 5,
    }
}

pub fn say_bytes(out: &mut impl Write, bytes: &[u8]) -> io::Result<()> {
    say_all(out, bytes, u64::from)
}

pub fn say_entries(out: &mut impl Write, entries: &[u16]) -> io::Result<()> {
    say_all(out, entries, u64::from)
}

// What the work area holds: the kind of each entry.
pub fn say_kinds(out: &mut impl Write, work: &[i64]) -> io::Result<()> {
    say_all(out, work, kind)
}

// ---- what a call answered

fn say_refused(out: &mut impl Write, refusal: Refusal) -> io::Result<()> {
    write!(out, "refused {}", u8::from(refusal))
}

pub fn say_answer(out: &mut impl Write, answer: Result<(), Refusal>) -> io::Result<()> {
    match answer {
        Ok(()) => write!(out, "done"),
        Err(refusal) => say_refused(out, refusal),
    }
}

// What Clear and Replace answer.
pub fn say_count(out: &mut impl Write, count: Result<u64, Refusal>) -> io::Result<()> {
    match count {
        Ok(count) => write!(out, "done {count}"),
        Err(refusal) => say_refused(out, refusal),
    }
}

pub fn say_finding(out: &mut impl Write, finding: Result<Finding, Refusal>) -> io::Result<()> {
    match finding {
        Ok(Finding { light, comparisons }) => {
            write!(
                out,
                "light {} {} {} {comparisons}",
                light.r, light.g, light.b
            )
        }
        Err(refusal) => say_refused(out, refusal),
    }
}

// A double by its bits; 0 stands for what is no number, whose bits differ from one processor to another.
fn bits(x: f64) -> u64 {
    if x.is_nan() { 0 } else { x.to_bits() }
}

pub fn say_band(out: &mut impl Write, band: Band) -> io::Result<()> {
    match band {
        Band::Figure(figure) => {
            write!(out, "figure {} {}", bits(figure.mean), bits(figure.least))
        }
        Band::Refused(refusal) => say_refused(out, refusal),
    }
}

pub fn say_budget(out: &mut impl Write, count: u64) -> io::Result<()> {
    write!(out, "takes {count}")
}
