// The program's text: the answer to an input, written into lent memory.
#![tactic(auto)]

ghost use Rattle.std.specs.Prelude.{◌≡◌, ◌+◌, ◌*◌, ◌≤◌, length, take};
ghost use Rattle.rules.specs.Answers.{number};
ghost use Rattle.fields.specs.Written.{Wrote};
ghost use Rattle.records.specs.Judging.{cells};
ghost use Rattle.text.specs.Text.{out_line, outs, light_line, bad_line, shown, reply};
ghost use Rattle.text.specs.Ready.{Accepted, Ready};

use records::{Fault, Reader, read_frame};
use rules::{Refusal, Rgb, Settings, Size};

// ---- writing

// The one line of a refusal.
fn put_bad(out: &mut [u8], fault: Fault) -> usize
    requires { 29 ≤ length out.old }
    ensures { Wrote (bad_line (number fault.refusal) fault.line) out.old 0 out.new result }
{
    let number = u8::from(fault.refusal);
    let numbers = [u64::from(number), fault.line as u64];
    fields::put_row(out, 0, b"bad", &numbers)
}

fn put_light(out: &mut [u8], a: Rgb) -> usize
    requires { 18 ≤ length out.old }
    ensures { Wrote (light_line a) out.old 0 out.new result × (result ≤ 18) }
{
    let numbers = [u64::from(a.r), u64::from(a.g), u64::from(a.b)];
    fields::put_row(out, 0, b"light", &numbers)
}

// One pixel: its map entry and its colour.
fn put_out(out: &mut [u8], at: usize, t: u16, r: u8, g: u8, b: u8) -> usize
    requires { at + 22 ≤ length out.old }
    ensures { Wrote (out_line t r g b) out.old at out.new result × (result ≤ at + 22) }
{
    let numbers = [u64::from(t), u64::from(r), u64::from(g), u64::from(b)];
    fields::put_row(out, at, b"out", &numbers)
}

// All pixels in row order.
fn put_outs(out: &mut [u8], at: usize, map: &[u16], picture: &[u8]) -> usize
    requires { (at + 22 * length map.now ≤ length out.old) × (length picture.now ≡ 3 * length map.now) }
    ensures { Wrote (outs (length map.now) map.now picture.now) out.old at out.new result }
{
    let mut next = at;
    for p in 0..map.len() {
        let i = 3 * p;
        next = put_out(
            out,
            next,
            map[p],
            picture[i],
            picture[i + 1],
            picture[i + 2],
        );
    }
    next
}

// ---- the whole

// The light is found, then used, and both are written. A frame that is ready is refused by neither call.
fn show(
    z: Size,
    k: Settings,
    mask: &[u8],
    frame: &[u8],
    map: &mut [u16],
    picture: &mut [u8],
    work: &mut [i64],
    out: &mut [u8],
) -> usize
    requires { Ready z k mask.now (length frame.now) (length map.old) (length picture.old) (length work.old) (length out.old) }
    ensures { Wrote (shown z k frame.now) out.old 0 out.new result }
{
    let found = haze::light(z, k, mask, frame, work).unwrap();
    haze::clear(z, k, found.light, mask, frame, map, picture, work).unwrap();
    let at = put_light(out, found.light);
    put_outs(out, at, &map[..], &picture[..])
}

// The answer to an accepted frame, of which all is seen, with memory of its own for the map, the picture and the work area.
fn clear_frame(z: Size, k: Settings, frame: &[u8], out: &mut [u8]) -> usize
    requires { Accepted z k (length frame.now) (length out.old) }
    ensures { Wrote (shown z k (take (3 * cells z) frame.now)) out.old 0 out.new result }
{
    let n = z.w * z.h;
    let m = 3 * n;
    let mask = [1u8; 576];
    let mut map = [0u16; 576];
    let mut picture = [0u8; 1728];
    let mut work = [0i64; 5000];
    show(
        z,
        k,
        &mask[..n],
        &frame[..m],
        &mut map[..n],
        &mut picture[..m],
        &mut work,
        out,
    )
}

// The answer to an input, written from the start of the lent memory, and its length. The longest answer, to 24 by 24 pixels, has 12,690 bytes.
pub fn answer(input: &[u8], out: &mut [u8; 12690]) -> usize
    ensures { Wrote (reply input.now) out.old 0 out.new result }
{
    let mut frame = [0u8; 1728];
    let start = Reader { at: 0, line: 1 };
    match read_frame(input, start, &mut frame) {
        Ok(read) => {
            if read.next.at < input.len() {
                let fault = Fault {
                    refusal: Refusal::Layout,
                    line: read.next.line,
                };
                return put_bad(out, fault);
            }
            clear_frame(read.z, read.k, &frame, out)
        }
        Err(fault) => put_bad(out, fault),
    }
}
