// Buffers filled by a rule of few numbers, so that the input stays short.
ghost use Rattle.std.specs.Prelude.{◌<◌};

use crate::Buffers;
use crate::line::part;

// What the entries of a part hold. With i an entry's place in the part and d its draw, a number below 65,536 from a generator that starts at
// the seed, the entry is low + d % noise + i / slow + i % fast, where a term with a divisor of 0 is left out; and where `spots` is not 0, about
// one entry in so many is 255 - d % 64 instead. A byte takes the number's last 8 bits. The work area takes numbers from 4 that it stands for.
#[derive(Clone, Copy)]
struct Pattern {
    seed: u64,
    low: u64,
    noise: u64,
    slow: u64,
    fast: u64,
    spots: u64,
}

// The generator's next state.
pub(crate) fn next(state: u64) -> u64
    ensures { result < 4294967296 }
{
    (state % 4294967296 * 1664525 + 1013904223) % 4294967296
}

// x % n, for any n, cut to 16 bits.
pub(crate) fn rest(x: u64, n: u64) -> u64
    ensures { result < 65536 }
{
    if n == 0 { 0 } else { x % n % 65536 }
}

// x / n, for any n, cut to 16 bits.
pub(crate) fn over(x: u64, n: u64) -> u64
    ensures { result < 65536 }
{
    if n == 0 { 0 } else { x / n % 65536 }
}

// Whether the draw falls on a spot, where there are any.
fn is_spot(draw: u64, spots: u64) -> bool {
    spots != 0 && draw % spots == 0
}

impl Pattern {
    fn given(args: &[u64; 24]) -> Pattern {
        Pattern {
            seed: args[4],
            low: args[5],
            noise: args[6],
            slow: args[7],
            fast: args[8],
            spots: args[9],
        }
    }

    // Entry i of a part, cut to 16 bits.
    fn value(self, i: u64, state: u64) -> u64
        ensures { result < 65536 }
    {
        let draw = state / 65536 % 65536;
        if is_spot(draw / 64, self.spots) {
            return 255 - draw % 64;
        }
        (self.low % 65536 + rest(draw, self.noise) + over(i, self.slow) + rest(i, self.fast))
            % 65536
    }
}

// ---- what a value stands for, in each kind of buffer

fn byte(v: u64) -> u8 {
    (v % 256) as u8
}

fn entry(v: u64) -> u16 {
    (v % 65536) as u16
}

// One of four numbers that no call leaves: the ends of the range, and the neighbours of 0.
fn unlike_zero(v: u64) -> i64 {
    match v % 4 {
        0 => i64::MIN,
        1 => i64::MAX,
        2 => -1,
        _ => 1,
    }
}

// ---- the fill

// Fills the part of a buffer that the line names, as far as the buffer reaches: each entry is what its value stands for.
fn fill_part<T: Copy, F: Fn(u64) -> T>(buffer: &mut [T], args: &[u64; 24], entry_of: F)
    requires { F.IsAlwaysCallable entry_of }
{
    let pattern = Pattern::given(args);
    let mut state = pattern.seed;
    for (i, place) in part(buffer, args, 2, 3).iter_mut().enumerate() {
        state = next(state);
        *place = entry_of(pattern.value(i as u64, state));
    }
}

// The line's second number says which buffer: 0 frame, 1 new pixels, 2 map, 3 picture, any other the work area.
pub(crate) fn fill(buffers: &mut Buffers, args: &[u64; 24]) {
    match args[1] {
        0 => fill_part(&mut buffers.frame, args, byte),
        1 => fill_part(&mut buffers.new, args, byte),
        2 => fill_part(&mut buffers.map, args, entry),
        3 => fill_part(&mut buffers.picture, args, byte),
        _ => fill_part(&mut buffers.work, args, unlike_zero),
    }
}
