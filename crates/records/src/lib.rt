// The records of the program's text: a line judged as one of them, the reader's step from line to line, and a whole frame.
#![tactic(auto)]

ghost use Rattle.std.specs.Prelude.{◌≡◌, ◌+◌, ◌*◌, ◌≤◌, ◌<◌, length, drop};
ghost use Rattle.std.proofs.lemmas.List.Edits.{sets};
ghost use Rattle.rules.specs.Answers.{said};
ghost use Rattle.fields.specs.Every.{every};
ghost use Rattle.fields.specs.LaidOut.{laid as is_laid};
ghost use Rattle.fields.specs.Fields.{split, field_of};
ghost use Rattle.fields.specs.Decimal.{numeral};
ghost use Rattle.records.specs.Records.{number_at, size_of, settings_of, colour_of, large as is_large, bright as is_bright, fault};
ghost use Rattle.records.specs.Judging.{channels};
ghost use Rattle.records.specs.Reader.{Stands, Passed, Painted, Framed};

use judge::{refuse, wrong_settings, wrong_size};
use rules::{Refusal, Settings, Size};

// The three records.
#[derive(Clone, Copy, Debug, PartialEq, Eq)]
pub enum Kind {
    Size,
    Set,
    Px,
}

// ---- one line, without its line end

// Whether field n of a line is a number.
fn is_number(line: &[u8], n: usize) -> bool
    ensures { result ≡ numeral (field_of 9 line.now n) }
{
    fields::read_number(fields::field(line, n)).is_some()
}

// The number in field n. Where there is none it is 0, as the definition has it, and no None: a line is judged before its numbers are used.
fn number_at(line: &[u8], n: usize) -> usize
    ensures { result ≡ number_at line.now n }
{
    fields::read_number(fields::field(line, n)).unwrap_or(0)
}

// Whether all fields after the first are numbers.
fn all_numbers(line: &[u8], count: usize) -> bool
    requires { count ≡ length (split 9 line.now) }
    ensures { result ≡ every numeral (drop 1 (split 9 line.now)) }
{
    for i in 1..count {
        if !is_number(line, i) {
            return false;
        }
    }
    true
}

// Whether a line of so many fields is the word and n numbers.
fn laid(line: &[u8], count: usize, word: &[u8], n: usize) -> bool
    requires { (count ≡ length (split 9 line.now)) × (n ≤ 8) }
    ensures { result ≡ is_laid numeral word.now n line.now }
{
    fields::same(fields::field(line, 0), word) && count == n + 1 && all_numbers(line, count)
}

fn size_of(line: &[u8]) -> Size
    ensures { result ≡ size_of line.now }
{
    Size {
        w: number_at(line, 1),
        h: number_at(line, 2),
    }
}

fn settings_of(line: &[u8]) -> Settings
    ensures { result ≡ settings_of line.now }
{
    Settings {
        s: number_at(line, 1),
        r: number_at(line, 2),
        omega: number_at(line, 3) as u64,
        e: number_at(line, 4) as u64,
        t0: number_at(line, 5) as u64,
        share: number_at(line, 6) as u64,
    }
}

// Whether a side is above 24.
fn large(z: Size) -> bool
    ensures { result ≡ is_large z }
{
    24 < z.w || 24 < z.h
}

// Whether a number of a pixel is above 255.
fn bright(line: &[u8]) -> bool
    ensures { result ≡ is_bright line.now }
{
    255 < number_at(line, 1) || 255 < number_at(line, 2) || 255 < number_at(line, 3)
}

fn fault_of_size(line: &[u8], count: usize) -> Result<(), Refusal>
    requires { count ≡ length (split 9 line.now) }
    ensures { said result ≡ fault Kind.Size line.now }
{
    refuse(!laid(line, count, b"size", 2), Refusal::Layout)?;
    let z = size_of(line);
    refuse(wrong_size(z), Refusal::Size)?;
    refuse(large(z), Refusal::Large)
}

fn fault_of_set(line: &[u8], count: usize) -> Result<(), Refusal>
    requires { count ≡ length (split 9 line.now) }
    ensures { said result ≡ fault Kind.Set line.now }
{
    refuse(!laid(line, count, b"set", 6), Refusal::Layout)?;
    refuse(wrong_settings(settings_of(line)), Refusal::Settings)
}

fn fault_of_px(line: &[u8], count: usize) -> Result<(), Refusal>
    requires { count ≡ length (split 9 line.now) }
    ensures { said result ≡ fault Kind.Px line.now }
{
    refuse(!laid(line, count, b"px", 3), Refusal::Layout)?;
    refuse(bright(line), Refusal::Layout)
}

// Why a line of so many fields is refused as a record of the kind: over the kinds, as `fault` and the verdict on a text are.
fn fault_of(kind: Kind, line: &[u8], count: usize) -> Result<(), Refusal>
    requires { count ≡ length (split 9 line.now) }
    ensures { said result ≡ fault kind line.now }
{
    match kind {
        Kind::Size => fault_of_size(line, count),
        Kind::Set => fault_of_set(line, count),
        Kind::Px => fault_of_px(line, count),
    }
}

// ---- line by line

// Where the next line begins, and its number.
#[derive(Clone, Copy)]
pub struct Reader {
    pub at: usize,
    pub line: usize,
}

// Why a text is refused, and the number of the line at fault.
#[derive(Clone, Copy)]
pub struct Fault {
    pub refusal: Refusal,
    pub line: usize,
}

// One line on: the line is judged as a record of the kind.
fn pass(input: &[u8], s: Reader, kind: Kind) -> Result<Reader, Fault>
    requires { Stands input.now s }
    ensures { Passed input.now kind s result }
{
    let at = s.at;
    let line = s.line;
    match fields::line_at(input, at) {
        Some(found) => match fault_of(kind, &input[at..found.end], found.fields) {
            Ok(()) => Ok(Reader {
                at: found.end + 1,
                line: line + 1,
            }),
            Err(refusal) => Err(Fault { refusal, line }),
        },
        None => Err(Fault {
            refusal: Refusal::Layout,
            line,
        }),
    }
}

// The pixel of a line, into its place in the frame.
fn put_pixel(frame: &mut [u8], p: usize, line: &[u8])
    requires { (3 * p + 2 < length frame.old) × (fault Kind.Px line.now ≡ 0) }
    ensures { frame.new ≡ sets frame.old (3 * p) (channels (colour_of line.now)) }
{
    let i = 3 * p;
    frame[i] = number_at(line, 1) as u8;
    frame[i + 1] = number_at(line, 2) as u8;
    frame[i + 2] = number_at(line, 3) as u8;
}

// n lines `px` on, their pixels into the frame.
fn read_pixels(input: &[u8], s: Reader, n: usize, frame: &mut [u8]) -> Result<Reader, Fault>
    requires { Stands input.now s × (3 * n ≤ length frame.old) }
    ensures { Painted input.now n s result frame.new }
{
    let mut t = s;
    for p in 0..n {
        let next = pass(input, t, Kind::Px)?;
        let at = t.at;
        let end = next.at - 1;
        put_pixel(frame, p, &input[at..end]);
        t = next;
    }
    Ok(t)
}

// One frame of a text: its size, its settings, and where the reader stands after its last pixel.
#[derive(Clone, Copy)]
pub struct Frame {
    pub z: Size,
    pub k: Settings,
    pub next: Reader,
}

// The frame that begins where s stands: `size`, `set`, and the pixels into the lent memory.
pub fn read_frame(input: &[u8], s: Reader, frame: &mut [u8]) -> Result<Frame, Fault>
    requires { Stands input.now s × (1728 ≤ length frame.old) }
    ensures { Framed input.now s result frame.new }
{
    let one = pass(input, s, Kind::Size)?;
    let two = pass(input, one, Kind::Set)?;
    let from = s.at;
    let at = one.at;
    let end = at - 1;
    let last = two.at - 1;
    let z = size_of(&input[from..end]);
    let k = settings_of(&input[at..last]);
    let next = read_pixels(input, two, z.w * z.h, frame)?;
    Ok(Frame { z, k, next })
}
