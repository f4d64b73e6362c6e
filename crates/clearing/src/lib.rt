// Clear and Replace, of calls that are not refused. Both bring a rectangle of map and picture up to date by way of the lines of a part of the frame, and these by way of a box: Clear
// the whole frame; Replace what is within s + 2r of the new pixels, by the lines within s + 3r and a box that reaches 2s + 4r.
#![tactic(auto)]

ghost use Rattle.std.specs.Prelude.{◌≡◌, ◌+◌, ◌*◌, ◌≤◌, length};
ghost use Rattle.rules.specs.Shape.{described, room};
ghost use Rattle.rules.specs.Transmission.{fit as lined};
ghost use Rattle.rules.specs.Buffers.{shown_by, map_of, picture_of, map_with, frame_with, near, pasted};
ghost use Rattle.rules.specs.Box.{part};
ghost use Rattle.rules.specs.Good.{GoodRect};
ghost use Rattle.rules.specs.Setup.{handed};
ghost use Rattle.rules.specs.Count.{grown_rect, frame_comparisons, clear_comparisons, replace_comparisons};
ghost use Rattle.rules.specs.Promise.{wiped, lent_of, after_clear, after_replace};
ghost use Rattle.planes.specs.View.{InPlane, box_of};
ghost use Rattle.planes.specs.Cells.{SameFrom};
ghost use Rattle.planes.specs.Stage.{Given, GivenView, Lined, box_seen, box_pixels};
ghost use Rattle.clearing.specs.Call.{Loan, Inside, Nested, shape_of, in_view, view_of};

use coarse::prepare;
use filter::fit;
use planes::{View, copy, wipe};
use rules::{Rect, Rgb, Settings, Size};
use writer::{write_map, write_picture};

// ---- rectangles

// A rectangle of the frame as a box in it.
fn view(z: Size, c: Rect) -> View
    ensures { result ≡ view_of (described z) c }
{
    let Size { w, h } = z;
    View {
        w,
        h,
        top: c.y,
        left: c.x,
        wide: c.w,
        tall: c.h,
    }
}

// A rectangle as a box in another that holds it.
fn within(outer: Rect, inner: Rect) -> View
    requires { Inside outer inner }
    ensures { result ≡ in_view outer inner }
{
    View {
        w: outer.w,
        h: outer.h,
        top: inner.y - outer.y,
        left: inner.x - outer.x,
        wide: inner.w,
        tall: inner.h,
    }
}

// The rectangle, grown by q rows and columns and cut at the frame.
fn grow(z: Size, c: Rect, q: usize) -> Rect
    requires { GoodRect (described z) c }
    ensures { result ≡ grown_rect (described z) q c }
{
    let x = c.x.saturating_sub(q);
    let y = c.y.saturating_sub(q);
    let right = (c.x + c.w).saturating_add(q).min(z.w);
    let low = (c.y + c.h).saturating_add(q).min(z.h);
    Rect {
        x,
        y,
        w: right - x,
        h: low - y,
    }
}

// The new pixels go into the frame at their rectangle.
fn paste(frame: &mut [u8], z: Size, c: Rect, new: &[u8])
    requires { GoodRect (described z) c × (length frame.old ≡ 3 * (z.w * z.h)) × (length new.now ≡ 3 * (c.w * c.h)) }
    ensures { frame.new ≡ pasted (described z) c new.now frame.old }
{
    let n = 3 * c.w;
    for j in 0..c.h {
        let to = 3 * ((c.y + j) * z.w + c.x);
        let from = 3 * (j * c.w);
        copy(&mut frame[to..to + n], &new[from..from + n]);
    }
}

// ---- the passes

// The lines of the view p of the box that the view v shows: behind the box's samples, in a work area that may hold anything. Returns the number of comparisons
// of the minimum.
pub fn lines(
    work: &mut [i64],
    mask: &[u8],
    frame: &[u8],
    v: View,
    p: View,
    k: Settings,
    a: Rgb,
) -> usize
    requires given_view { GivenView v k a mask.now frame.now × InPlane p × (p.w ≡ v.wide) × (p.h ≡ v.tall) }
    requires tall_in_bounds { 2 * (v.wide * v.tall) + 2 * (p.wide * p.tall) ≤ length work.old }
    ensures lines { Lined work.new (2 * (v.wide * v.tall)) p.wide p.tall
        (part p.top p.left (box_seen v mask.now))
        (part p.top p.left (lined (box_of v) k a (box_pixels v mask.now frame.now))) }
    ensures rest { SameFrom work.old work.new (2 * (v.wide * v.tall) + 2 * (p.wide * p.tall)) }
    ensures count { result ≡ frame_comparisons (box_of v) k.s }
{
    let count = prepare(work, mask, frame, v, k, a);
    fit(work, mask, v, p, k.r, k.e);
    count
}

// The rectangle o of map and picture, by way of the lines of the rectangle p and the box f, as a clearing of the whole frame has it. The work area may hold
// anything, and is left wiped. Returns the number of comparisons of the minimum.
fn refresh(
    map: &mut [u16],
    picture: &mut [u8],
    mask: &[u8],
    frame: &[u8],
    work: &mut [i64],
    z: Size,
    k: Settings,
    a: Rgb,
    f: Rect,
    p: Rect,
    o: Rect,
) -> usize
    requires given { Given (described z) (described z) 0 0 k a mask.now frame.now × Nested (described z) k f p o }
    requires loan { Loan (described z) map.old picture.old work.old }
    ensures map { map.new ≡ map_with (described z) (near 0 o) (map_of (handed z k a mask.now) (shown_by (handed z k a mask.now) frame.now)) map.old }
    ensures picture { picture.new ≡ frame_with (described z) (near 0 o) (picture_of (handed z k a mask.now) (shown_by (handed z k a mask.now) frame.now)) picture.old }
    ensures work { work.new ≡ wiped (described z) work.old }
    ensures count { result ≡ frame_comparisons (shape_of f) k.s }
{
    let to = view(z, o);
    let count = lines(work, mask, frame, view(z, f), within(f, p), k, a);
    write_map(
        map,
        mask,
        frame,
        to,
        &work[..],
        2 * (f.w * f.h),
        view(z, p),
        within(p, o),
        k.r,
    );
    write_picture(picture, &map[..], frame, to, a, k.t0);
    wipe(work, 8 * ((z.w + 1) * (z.h + 1)));
    count
}

// Clear, of a call that is not refused: all three are the whole frame. Returns the number of comparisons of the minimum.
pub fn clear_whole(
    map: &mut [u16],
    picture: &mut [u8],
    mask: &[u8],
    frame: &[u8],
    work: &mut [i64],
    z: Size,
    k: Settings,
    a: Rgb,
) -> usize
    requires given { Given (described z) (described z) 0 0 k a mask.now frame.now }
    requires loan { Loan (described z) map.old picture.old work.old }
    ensures count { result ≡ clear_comparisons (handed z k a mask.now) }
    ensures after { lent_of frame.now map.new picture.new work.new
        ≡ after_clear (handed z k a mask.now) (lent_of frame.now map.old picture.old work.old) }
{
    let o = Rect {
        x: 0,
        y: 0,
        w: z.w,
        h: z.h,
    };
    refresh(map, picture, mask, frame, work, z, k, a, o, o, o)
}

// Replace, of a call that is not refused: the rectangle of the new pixels grown by the reach, by that and the radius of the filter, and by twice the reach.
// Returns the number of comparisons of the minimum.
pub fn replace_whole(
    mask: &[u8],
    frame: &mut [u8],
    map: &mut [u16],
    picture: &mut [u8],
    work: &mut [i64],
    z: Size,
    k: Settings,
    a: Rgb,
    c: Rect,
    new: &[u8],
) -> usize
    requires given { Given (described z) (described z) 0 0 k a mask.now frame.old }
    requires loan { Loan (described z) map.old picture.old work.old }
    requires good_rect { GoodRect (described z) c × (length new.now ≡ 3 * (c.w * c.h)) }
    ensures count { result ≡ replace_comparisons (handed z k a mask.now) c }
    ensures after { lent_of frame.new map.new picture.new work.new
        ≡ after_replace (handed z k a mask.now) c new.now
        (lent_of frame.old map.old picture.old work.old) }
{
    paste(frame, z, c, new);
    let q = k.s + 2 * k.r;
    let f = grow(z, c, 2 * q);
    let p = grow(z, c, q + k.r);
    let o = grow(z, c, q);
    refresh(map, picture, mask, frame, work, z, k, a, f, p, o)
}
