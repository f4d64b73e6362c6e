// Masks filled by a rule of few numbers.
use crate::fill::{next, over, rest};
use crate::line::front;

// Which pixels a mask shows, in a frame of `width` columns: of the columns from `left` on, `right` left out, every `across`-th, and of the rows
// from `top` on, `bottom` left out, every `down`-th. Of these a pixel is seen where its draw falls below `keep`, in sixteenths. A seen pixel has
// the byte `byte`, or where that is 0 one of 1, 2, 128 and 255, by its draw. The draws are those of `fill::Pattern`.
#[derive(Clone, Copy)]
struct Shown {
    width: u64,
    left: u64,
    right: u64,
    top: u64,
    bottom: u64,
    across: u64,
    down: u64,
    seed: u64,
    keep: u64,
    byte: u64,
}

// Whether x is one of first, first + step and so on, before the end.
fn is_among(x: u64, first: u64, end: u64, step: u64) -> bool {
    first <= x && x < end && rest(x - first, step) == 0
}

fn seen_byte(byte: u64, draw: u64) -> u8 {
    if byte != 0 {
        return (byte % 256) as u8;
    }
    match draw % 4 {
        0 => 1,
        1 => 2,
        2 => 128,
        _ => 255,
    }
}

impl Shown {
    fn given(args: &[u64; 24]) -> Shown {
        Shown {
            width: args[2],
            left: args[3],
            right: args[4],
            top: args[5],
            bottom: args[6],
            across: args[7],
            down: args[8],
            seed: args[9],
            keep: args[10],
            byte: args[11],
        }
    }

    // Whether pixel i is of a column and a row that are shown.
    fn shows(self, i: u64) -> bool {
        is_among(rest(i, self.width), self.left, self.right, self.across)
            && is_among(over(i, self.width), self.top, self.bottom, self.down)
    }

    // Byte i of a mask.
    fn value(self, i: u64, state: u64) -> u8 {
        let draw = state / 65536 % 65536;
        if self.shows(i) && draw % 16 < self.keep {
            seen_byte(self.byte, draw / 16)
        } else {
            0
        }
    }
}

// Fills as many bytes of the mask as the line says, as far as the mask reaches.
pub(crate) fn show(mask: &mut [u8], args: &[u64; 24]) {
    let shown = Shown::given(args);
    let mut state = shown.seed;
    for (i, byte) in front(mask, args, 1).iter_mut().enumerate() {
        state = next(state);
        *byte = shown.value(i as u64, state);
    }
}
