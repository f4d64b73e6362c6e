// Asks for each name of standard input. A call is a field text, a house text and a name; each is followed by one byte 30, which is no part of it.
// A line for each call: the number of the refusal, a tab, and the part that is returned.
#![tactic(auto)]

use std::io;
use std::io::{BufWriter, Read, Write};

fn answer<'a>(
    out: &mut impl Write,
    field: &'a [u8],
    house: &'a [u8],
    name: &[u8],
) -> io::Result<()> {
    let number = settings::setting_refusal(field, house, name).map_or(0, u8::from);
    write!(out, "{number}\t")?;
    out.write_all(settings::setting(field, house, name))?;
    out.write_all(b"\n")
}

// Answers each call, one after the other. A call is three parts, and an iterator over parts would give one at a time.
fn run(out: &mut impl Write, input: &[u8]) -> io::Result<()> {
    let mut at = 0;
    while at < input.len() {
        let field = fields::end_of(input, at, 30);
        let second = fields::after(input, field);
        let house = fields::end_of(input, second, 30);
        let third = fields::after(input, house);
        let name = fields::end_of(input, third, 30);
        answer(
            out,
            &input[at..field],
            &input[second..house],
            &input[third..name],
        )?;
        at = fields::after(input, name);
    }
    Ok(())
}

// No more of the input is read than 262,144 bytes. A crate for these lines and those of runcalls and runtexts would be no shorter.
fn main(rt: HostRuntime) -> io::Result<()> {
    let mut input = Vec::new(rt.alloc());
    rt.reader().take(262144).read_to_end(&mut input)?;
    let mut out = BufWriter::new(rt.alloc(), io::writer(&rt))?;
    run(&mut out, &input)?;
    out.flush()
}
