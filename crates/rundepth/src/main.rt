// The depth of every 16-bit number: a line with the number and its depth wherever that is another than the depth of the number before.
#![tactic(auto)]

ghost use Rattle.std.specs.Prelude.{◌≡◌, IfOk};
ghost use Rattle.depth.specs.Table.{depth_of};

use std::io;
use std::io::{BufWriter, Write};

fn line(out: &mut impl Write, t: u16, d: u16) -> io::Result<()> {
    writeln!(out, "{t} {d}")
}

// Gives the depth of t, with a line for it where it is not `last`.
fn told(out: &mut impl Write, t: u16, last: u16) -> io::Result<u16>
    ensures { IfOk result (λ d. d ≡ depth_of t) }
{
    let d = depth::depth(t);
    if d != last {
        line(out, t, d)?;
    }
    Ok(d)
}

fn main(rt: HostRuntime) -> io::Result<()> {
    let mut out = BufWriter::new(rt.alloc(), io::writer(&rt))?;
    // no number has this depth, so the first has a line
    let mut last = 65535;
    for t in 0..=65535 {
        last = told(&mut out, t, last)?;
    }
    out.flush()
}
