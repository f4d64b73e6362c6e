// The six calls on lent parts of the buffers.
use crate::Buffers;
use crate::command::Call;
use crate::line::{front, part};
use rules::{Rect, Rgb, Settings, Size};
use std::io;
use std::io::Write;
use telling::{
    say_answer, say_band, say_budget, say_bytes, say_count, say_entries, say_finding, say_kinds,
};

// ---- what the numbers of a line say: functions, since a From for a type of `rules` can stand in `rules` alone

fn size(args: &[u64; 24]) -> Size {
    Size {
        w: args[1] as usize,
        h: args[2] as usize,
    }
}

fn settings(args: &[u64; 24]) -> Settings {
    Settings {
        s: args[3] as usize,
        r: args[4] as usize,
        omega: args[5],
        e: args[6],
        t0: args[7],
        share: args[8],
    }
}

fn light(args: &[u64; 24]) -> Rgb {
    Rgb {
        r: (args[9] % 256) as u8,
        g: (args[10] % 256) as u8,
        b: (args[11] % 256) as u8,
    }
}

fn rect(args: &[u64; 24]) -> Rect {
    Rect {
        x: args[12] as usize,
        y: args[13] as usize,
        w: args[14] as usize,
        h: args[15] as usize,
    }
}

// ---- the call

// What a call is lent.
#[derive(Drop)]
struct Lent<'a> {
    mask: &'a [u8],
    frame: &'a mut [u8],
    new: &'a [u8],
    map: &'a mut [u16],
    picture: &'a mut [u8],
    work: &'a mut [i64],
}

// Lends as much of each buffer as asked for: of map and picture from any entry on, of the others from the first.
fn lend<'a>(buffers: &'a mut Buffers, args: &[u64; 24]) -> Lent<'a> {
    let Buffers {
        mask,
        frame,
        new,
        map,
        picture,
        work,
    } = buffers;
    Lent {
        mask: front(mask, args, 23),
        frame: front(frame, args, 16),
        new: front(new, args, 17),
        map: part(map, args, 21, 18),
        picture: part(picture, args, 22, 19),
        work: front(work, args, 20),
    }
}

// The call on the lent parts, and its answer.
fn say_call(out: &mut impl Write, call: Call, args: &[u64; 24], lent: Lent<'_>) -> io::Result<()> {
    let Lent {
        mask,
        frame,
        new,
        map,
        picture,
        work,
    } = lent;
    let z = size(args);
    let k = settings(args);
    let a = light(args);
    let c = rect(args);
    match call {
        Call::Light => say_finding(out, haze::light(z, k, mask, frame, work)),
        Call::Clear => say_count(out, haze::clear(z, k, a, mask, frame, map, picture, work)),
        Call::Replace => say_count(
            out,
            haze::replace(z, k, a, c, new, mask, frame, map, picture, work),
        ),
        Call::Haze => say_answer(out, haze::haze(z, a, frame, map, picture)),
        Call::Band => say_band(out, haze::band(z, map, c.x, c.y)),
        Call::Budget => say_budget(out, haze::comparisons(z, k.s)),
    }
}

// What the lent parts hold.
fn say_lent(out: &mut impl Write, lent: Lent<'_>) -> io::Result<()> {
    let Lent {
        mask,
        frame,
        new,
        map,
        picture,
        work,
    } = lent;
    say_bytes(out, mask)?;
    say_bytes(out, frame)?;
    say_bytes(out, new)?;
    say_entries(out, map)?;
    say_bytes(out, picture)?;
    say_kinds(out, work)
}

// The call, and what the lent parts hold after it.
pub(crate) fn report(
    out: &mut impl Write,
    call: Call,
    args: &[u64; 24],
    buffers: &mut Buffers,
) -> io::Result<()> {
    say_call(out, call, args, lend(buffers, args))?;
    say_lent(out, lend(buffers, args))?;
    out.write_all(b"\n")
}
