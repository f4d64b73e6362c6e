// Answers each text of standard input as `clearframe` answers its input. Every text is followed by one byte 30, which is no part of it;
// every answer is followed by a line that holds `=` alone.
#![tactic(auto)]

use std::io;
use std::io::{BufWriter, Read, Write};

// What ends a text.
const END: u8 = 30;

fn answer(out: &mut impl Write, input: &[u8]) -> io::Result<()> {
    let mut lent = [0u8; 12690];
    let n = text::answer(input, &mut lent);
    out.write_all(&lent[..n])?;
    out.write_all(b"=\n")
}

// Answers each text, one after the other.
fn run(out: &mut impl Write, input: &[u8]) -> io::Result<()> {
    for text in input.split_inclusive(|b| *b == END) {
        answer(out, fields::part(text, END, 0))?;
    }
    Ok(())
}

// No more of the input is read than 524,288 bytes. A crate for these lines and those of runcalls and runsettings would be no shorter.
fn main(rt: HostRuntime) -> io::Result<()> {
    let mut input = Vec::new(rt.alloc());
    rt.reader().take(524288).read_to_end(&mut input)?;
    let mut out = BufWriter::new(rt.alloc(), io::writer(&rt))?;
    run(&mut out, &input)?;
    out.flush()
}
