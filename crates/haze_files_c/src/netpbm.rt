// Netpbm files for C: a PPM file read into a frame and written from one, and the header of any such file.
ghost use Rattle.std.specs.Prelude.{◌≡◌};
ghost use Rattle.rules.specs.Answers.{said, left};
ghost use Rattle.ppm.specs.Promise.{length_for};
ghost use Rattle.boundary.specs.Handed.{size};
ghost use Rattle.haze_files_c.specs.Netpbm.{heading, SizeReturns, read_places, ReadReturns, WriteReturns, HeaderReturns};

use boundary::{number, sized};
use rules::{Refusal, Size};

// The number that the reader's answer says; the size of a frame that was taken goes into the two places.
fn told(taken: Result<Size, Refusal>, w: &mut u64, h: &mut u64) -> u8
    ensures { (result ≡ said taken) × (size w.new h.new ≡ left taken (size w.old h.old)) }
{
    if let Ok(z) = taken {
        *w = z.w as u64;
        *h = z.h as u64;
    }
    number(taken)
}

// The size of the picture in a PPM file goes into the two places.
#[unsafe(no_mangle)]
pub extern "C" fn haze_ppm_size(file: &[u8], w: &mut u64, h: &mut u64) -> u8
    ensures { SizeReturns file.now (size w.old h.old) result (size w.new h.new) }
{
    told(ppm::size(file), w, h)
}

// The picture in a PPM file goes into the lent frame, its size into the two places.
#[unsafe(no_mangle)]
pub extern "C" fn haze_ppm_read(file: &[u8], frame: &mut [u8], w: &mut u64, h: &mut u64) -> u8
    ensures { ReadReturns file.now
        (read_places frame.old (size w.old h.old))
        result
        (read_places frame.new (size w.new h.new)) }
{
    told(ppm::read(file, frame), w, h)
}

// How long the PPM file of a frame is, and 0 for a size that is refused.
#[unsafe(no_mangle)]
pub extern "C" fn haze_ppm_length(w: u64, h: u64) -> u64
    ensures { result ≡ length_for (size w h) }
{
    ppm::length(sized(w, h)) as u64
}

// The PPM file of a frame goes into the lent output.
#[unsafe(no_mangle)]
pub extern "C" fn haze_ppm_write(w: u64, h: u64, frame: &[u8], file: &mut [u8]) -> u8
    ensures { WriteReturns (size w h) frame.now file.old result file.new }
{
    number(ppm::write(sized(w, h), frame, file))
}

// Width, height, maximum and the place of the first pixel byte of a file of a kind, b'6' for PPM and b'5' for PGM, go into the four places.
#[unsafe(no_mangle)]
pub extern "C" fn haze_pnm_header(
    file: &[u8],
    kind: u8,
    w: &mut u64,
    h: &mut u64,
    maximum: &mut u64,
    start: &mut u64,
) -> u8
    ensures { HeaderReturns kind file.now
        (heading w.old h.old maximum.old start.old)
        result
        (heading w.new h.new maximum.new start.new) }
{
    match pnm::header(file, kind) {
        Some(head) => {
            *w = head.width as u64;
            *h = head.height as u64;
            *maximum = head.maximum as u64;
            *start = head.start as u64;
            0
        }
        None => u8::from(Refusal::Header),
    }
}
