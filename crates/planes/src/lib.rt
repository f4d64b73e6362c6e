// A box in a plane, the wiping of the lent work area, and a row copied. What stands in the area between the passes is said in `specs/Stage`.
#![tactic(auto)]

ghost use Rattle.std.specs.Prelude.{◌≡◌, cond, not, eqb, ◌+◌, ◌*◌, ◌≤◌, ◌<◌, ◌++◌, length, drop, replicate, pos};
ghost use Rattle.planes.specs.View.{InPlane, row_start};

// A box in a plane: the plane's columns and rows, the box's first row and column, and its columns and rows.
#[derive(Clone, Copy)]
pub struct View {
    pub w: usize,
    pub h: usize,
    pub top: usize,
    pub left: usize,
    pub wide: usize,
    pub tall: usize,
}

// The place in the plane of the first pixel of the box's row y.
pub fn row_start(v: View, y: usize) -> usize
    requires { InPlane v × (y < v.tall) }
    ensures { (result ≡ row_start v y) × (result + v.wide ≤ v.w * v.h) }
{
    (v.top + y) * v.w + v.left
}

// What is told of a pixel, or what stands for it where the mask's byte m hides the pixel.
pub fn seen_or<T: Copy>(m: u8, told: T, hidden: T) -> T
    ensures { result ≡ cond (not (eqb m 0)) told hidden }
{
    if m == 0 { hidden } else { told }
}

// Each entry becomes that of the other slice. By a loop, and not by `copy_from_slice`, for which an archive for C would need the C library's memmove.
pub fn copy<T: Copy>(out: &mut [T], from: &[T])
    requires { length out.old ≡ length from.now }
    ensures after { out.new ≡ from.now }
{
    for i in 0..from.len() {
        out[i] = from[i];
    }
}

// The first n entries become 0, the rest is as it was.
pub fn wipe(work: &mut [i64], n: usize)
    requires { n ≤ length work.old }
    ensures { work.new ≡ replicate n (pos 0) ++ drop n work.old }
{
    work[..n].fill(0);
}
