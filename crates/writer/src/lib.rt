// What the pipeline hands over: the map entries of a rectangle, then its cleared pixels from them. The entry of a hidden pixel is 10,000. Rows are written run by run, each through the part of the
// lent buffer that starts at the run's first pixel.
#![tactic(auto)]

ghost use Rattle.std.specs.Prelude.{◌≡◌, ℕ, ◌+◌, ◌*◌, ◌≤◌, ◌<◌, length, get_or};
ghost use Rattle.rules.specs.Window.{Plane, Shown};
ghost use Rattle.rules.specs.Transmission.{Line};
ghost use Rattle.rules.specs.Buffers.{pixels, values, map_with, frame_with, near};
ghost use Rattle.planes.specs.View.{InPlane, Framed, whole, rect_of};
ghost use Rattle.planes.specs.Stage.{Lined, Lining, box_seen};
ghost use Rattle.writer.specs.Run.{Run};
ghost use Rattle.writer.specs.Row.{Windows, entry_from, ScaleOf, Known, Scales, floored_at, bytes_of, cleared_by, Floored};
ghost use Rattle.writer.specs.Write.{Placed, entry_over, recovered_by, Entries};

use pixel::{guide_of, pixel_at, recovered, refined, scale};
use planes::{View, row_start, seen_or};
use rules::Rgb;
use sizes::WindowSizes;
use sums::SquareSums;

// The map entries of the frame's pixels from position p on fill the part: from the sums of slopes and of offsets over their windows, and from the windows' sizes.
fn refine_row(
    map: &mut [u16],
    mask: &[u8],
    frame: &[u8],
    p: usize,
    sums: &SquareSums,
    sizes: &WindowSizes,
)
    requires { (p + length map.old ≤ length mask.now) × (3 * (p + length map.old) ≤ length frame.now)
        × Windows (length map.old) sums.now.first sums.now.second sizes.now.ns sizes.now.inverses }
    ensures { Run (entry_from mask.now frame.now p sums.now.first sums.now.second sizes.now.ns) p (length map.old) map.old map.new }
{
    for i in 0..map.len() {
        let t = refined(
            sizes.ns[i],
            sizes.inverses[i],
            sums.first[i],
            sums.second[i],
            guide_of(pixel_at(frame, p + i)),
        );
        map[i] = seen_or(mask[p + i], t as u16, 10000);
    }
}

// The scale of a transmission, from the table, where 0 says that it is not known yet.
// No scale is 0, and an Option of a u32 is twice as long: every call sets the table up.
fn scale_of(table: &mut [u32], t: u64) -> u32
    requires { Known table.old × (t ≤ 10000) }
    ensures known { Known table.new }
    ensures scale { ScaleOf t result }
{
    let i = t as usize;
    let known = table[i];
    if known != 0 {
        return known;
    }
    let s = scale(t as u32);
    table[i] = s;
    s
}

// The scales of the transmissions of the entries at the part's front, one for each place.
fn scale_row(scales: &mut [u32], map: &[u16], t0: u64, table: &mut [u32])
    requires { (length scales.old ≤ length map.now) × (t0 ≤ 10000) × Known table.old × ((k : ℕ) → k < length scales.old → get_or map.now k 0 ≤ 10000) }
    ensures known { Known table.new }
    ensures scales { Scales (floored_at map.now t0) (length scales.old) scales.new }
{
    for x in 0..scales.len() {
        scales[x] = scale_of(table, (map[x] as u64).max(t0));
    }
}

// The pixels of the frame from position p on, each cleared by its scale, go to the front of the part.
fn recover_row(picture: &mut [u8], frame: &[u8], p: usize, a: Rgb, scales: &[u32])
    requires { (3 * length scales.now ≤ length picture.old) × (3 * (p + length scales.now) ≤ length frame.now) }
    ensures { (T : ℕ → ℕ) → Floored T (length scales.now) → Scales T (length scales.now) scales.now
        → Run (bytes_of (cleared_by a frame.now p T)) (3 * p) (3 * length scales.now) picture.old picture.new }
{
    for x in 0..scales.len() {
        let k = scales[x];
        let i = pixel_at(frame, p + x);
        let q = 3 * x;
        picture[q] = recovered(a.r, i.r, k);
        picture[q + 1] = recovered(a.g, i.g, k);
        picture[q + 2] = recovered(a.b, i.b, k);
    }
}

// The map entries of the view `to` of the frame, from the lines at `lines`, which are those of the box b of the frame, and of which `v` is the view with the same
// pixels.
pub fn write_map(
    map: &mut [u16],
    mask: &[u8],
    frame: &[u8],
    to: View,
    work: &[i64],
    lines: usize,
    b: View,
    v: View,
    r: usize,
)
    requires in_plane { InPlane to × InPlane v × (v.wide ≡ to.wide) × (v.tall ≡ to.tall) × (r ≤ 60) × Framed b v mask.now × Placed to b v }
    requires map_len { (length map.old ≡ to.w * to.h) × (length frame.now ≡ 3 * (to.w * to.h)) × Lining work.now lines v.w v.h (box_seen b mask.now) }
    ensures map { (F : Plane (Shown Line)) → Lined work.now lines v.w v.h (box_seen b mask.now) F
        → map.new ≡ map_with (whole to) (near 0 (rect_of to)) (entry_over to v r (pixels (whole to) frame.now) F) map.old }
    ensures held { Entries to map.new }
{
    let second = lines + v.w * v.h;
    let mut sizes = WindowSizes::new();
    let mut sums = SquareSums::new();
    sizes.begin(mask, b, v, r);
    sums.begin(&work[lines..], &work[second..], v, r);
    for y in 0..v.tall {
        sizes.resize(mask, b, v, r, y);
        sums.next(&work[lines..], &work[second..], v, r, y);
        let p = row_start(to, y);
        refine_row(&mut map[p..p + v.wide], mask, frame, p, &sums, &sizes);
    }
}

// The cleared pixels of the view `to` of the frame, from its map entries.
pub fn write_picture(picture: &mut [u8], map: &[u16], frame: &[u8], to: View, a: Rgb, t0: u64)
    requires in_plane { InPlane to × (0 < t0) × (t0 ≤ 10000) × (length map.now ≡ to.w * to.h) × Entries to map.now }
    requires frame_len { (length frame.now ≡ 3 * (to.w * to.h)) × (length picture.old ≡ 3 * (to.w * to.h)) }
    ensures { picture.new ≡ frame_with (whole to) (near 0 (rect_of to))
        (recovered_by a t0 (pixels (whole to) frame.now) (values (whole to) map.now)) picture.old }
{
    let mut table = [0u32; 10001];
    let mut scales = [0u32; 1024];
    for y in 0..to.tall {
        let from = row_start(to, y);
        let from3 = 3 * from;
        let row = &mut scales[..to.wide];
        scale_row(row, &map[from..], t0, &mut table[..]);
        recover_row(&mut picture[from3..], frame, from, a, row);
    }
}
