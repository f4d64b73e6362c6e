// Runs the six calls on what standard input says, and writes after each call its answer and a digest of every buffer that was lent.
// A line of input is one command: decimal numbers, each ended by one byte that is no digit. The first number says what to do:
//   1 light, 2 clear, 3 replace, 4 haze, 5 band figure, 6 fill a part of a buffer, 7 fill the mask, 8 budget.
// The buffers stay from line to line, so that a run of replacements is a run of lines. A call's other numbers are, in this order:
//   W H, s r omega E t0 share, the light R G B, the rectangle x y w h (for the band figure: from, to, 0, 0),
//   how many entries of frame, new pixels, map, picture and work area are lent, which entry of map and picture is the first,
//   and how many bytes of the mask are lent.
// Haze takes the frame as the clean one and hazes the picture; the budget takes W H and s alone. A fill's other numbers are the buffer's, the
// first entry and how many, and those of `fill::Pattern`; for the mask how many bytes, and those of `mask::Shown`.
#![tactic(auto)]

mod calls;
mod command;
mod fill;
mod line;
mod mask;

use command::Command;
use std::io;
use std::io::{BufWriter, Read, Write};

// The buffers hold a frame of 130 by 130 pixels with its work area and mask, two maps and two pictures, each with one entry more.
const PIXELS: usize = 50701;

const MAPS: usize = 33802;

const PICTURES: usize = 101402;

const WORK: usize = 137289;

const MASK: usize = 16901;

#[derive(Drop)]
struct Buffers {
    mask: [u8; MASK],
    frame: [u8; PIXELS],
    new: [u8; PIXELS],
    map: [u16; MAPS],
    picture: [u8; PICTURES],
    work: [i64; WORK],
}

// Does what one line says.
fn act(out: &mut impl Write, args: &[u64; 24], buffers: &mut Buffers) -> io::Result<()> {
    match Command::from(args[0]) {
        Command::Call(call) => calls::report(out, call, args, buffers),
        Command::Fill => {
            fill::fill(buffers, args);
            Ok(())
        }
        Command::Mask => {
            mask::show(&mut buffers.mask, args);
            Ok(())
        }
    }
}

// Does what each line of the text says, one after the other.
fn run(out: &mut impl Write, text: &[u8], buffers: &mut Buffers) -> io::Result<()> {
    for line in text.split_inclusive(|b| *b == b'\n') {
        act(out, &line::numbers(line), buffers)?;
    }
    Ok(())
}

// No more of the input is read than 524,288 bytes.
fn main(rt: HostRuntime) -> io::Result<()> {
    let mut text = Vec::new(rt.alloc());
    rt.reader().take(524288).read_to_end(&mut text)?;
    let mut out = BufWriter::new(rt.alloc(), io::writer(&rt))?;
    let mut buffers = Buffers {
        mask: [0; MASK],
        frame: [0; PIXELS],
        new: [0; PIXELS],
        map: [0; MAPS],
        picture: [0; PICTURES],
        work: [0; WORK],
    };
    run(&mut out, &text, &mut buffers)?;
    out.flush()
}
