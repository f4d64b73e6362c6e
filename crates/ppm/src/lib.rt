// PPM files: a picture read into a frame, and written from one. No public call asks anything of its caller.
#![tactic(auto)]

ghost use Rattle.std.specs.Prelude.{◌≡◌, ◌≤◌, ◌<◌, length};
ghost use Rattle.rules.specs.Answers.{said};
ghost use Rattle.rules.specs.Refusals.{first};
ghost use Rattle.fields.specs.Decimal.{decimal};
ghost use Rattle.fields.specs.Written.{Wrote};
ghost use Rattle.ppm.specs.File.{head};
ghost use Rattle.ppm.specs.Promise.{tests_lent, refuse_write, length_for, Sizes, Reads, Writes};

use judge::{refuse, wrong_frame, wrong_size};
use rules::{Refusal, Size};

// ---- read

// Why a file whose header is good is refused: by its size and maximum, the number of bytes behind the header, and the length of the lent frame.
fn refuse_read(z: Size, top: usize, n: usize, lent: usize) -> Result<(), Refusal>
    ensures { said result ≡ first (tests_lent z top n lent) }
{
    refuse(wrong_size(z), Refusal::Size)?;
    refuse(top != 255, Refusal::Maximum)?;
    refuse(wrong_frame(z, n), Refusal::Bytes)?;
    refuse(wrong_frame(z, lent), Refusal::Loan)
}

// The size of the picture in a file, so that a frame of the right length can be lent: as if one were.
pub fn size(s: &[u8]) -> Result<Size, Refusal>
    ensures { Sizes s.now result }
{
    let head = pnm::header(s, b'6').ok_or(Refusal::Header)?;
    let z = Size {
        w: head.width,
        h: head.height,
    };
    let bytes = s.len() - head.start;
    refuse_read(z, head.maximum, bytes, bytes)?;
    Ok(z)
}

// The picture of a file goes into the lent frame.
pub fn read(s: &[u8], frame: &mut [u8]) -> Result<Size, Refusal>
    ensures { Reads s.now frame.old result frame.new }
{
    let head = pnm::header(s, b'6').ok_or(Refusal::Header)?;
    let z = Size {
        w: head.width,
        h: head.height,
    };
    refuse_read(z, head.maximum, s.len() - head.start, frame.len())?;
    fields::put_word(frame, 0, &s[head.start..]);
    Ok(z)
}

// ---- write

// How many digits a number below 10,000 has.
fn digits(n: usize) -> usize
    requires { n < 10000 }
    ensures { result ≡ length (decimal n) }
{
    match n {
        0..=9 => 1,
        10..=99 => 2,
        100..=999 => 3,
        _ => 4,
    }
}

// How long the file of a frame of a size is.
// 0 for a size that is refused, and no Option: C's haze_ppm_length promises this number.
pub fn length(z: Size) -> usize
    ensures { result ≡ length_for z }
{
    if wrong_size(z) {
        return 0;
    }
    9 + digits(z.w) + digits(z.h) + 3 * (z.w * z.h)
}

#[tactic(auto, unfolding(crate::specs::Promise::refuse_write))]
fn refuse_write(z: Size, frame: usize, out: usize) -> Result<(), Refusal>
    ensures { said result ≡ refuse_write z frame out }
{
    refuse(wrong_size(z), Refusal::Size)?;
    refuse(wrong_frame(z, frame), Refusal::Frame)?;
    refuse(out != length(z), Refusal::Loan)
}

// Writes the header, and answers where it ends.
#[tactic(auto, using(crate::proofs::Long::head_long))]
fn put_head(out: &mut [u8], z: Size) -> usize
    requires { length (head z) ≤ length out.old }
    ensures { Wrote (head z) out.old 0 out.new result }
{
    let wide = fields::put_word(out, 0, b"P6\n");
    let blank = fields::put_number(out, wide, z.w as u64);
    let tall = fields::put_word(out, blank, b" ");
    let end = fields::put_number(out, tall, z.h as u64);
    fields::put_word(out, end, b"\n255\n")
}

// The file of a frame goes into the lent output.
pub fn write(z: Size, frame: &[u8], out: &mut [u8]) -> Result<(), Refusal>
    ensures { Writes z frame.now out.old result out.new }
{
    refuse_write(z, frame.len(), out.len())?;
    let at = put_head(out, z);
    fields::put_word(out, at, frame);
    Ok(())
}
