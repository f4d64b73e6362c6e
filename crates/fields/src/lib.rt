// Lines, fields and numbers of a text: read from lent bytes, written into them.
#![tactic(auto)]

ghost use Rattle.std.specs.Prelude.{◌≡◌, ◌∷◌, ◌≤◌, ◌+◌, min, length};
ghost use Rattle.fields.specs.Bytes.{class_of, line_of};
ghost use Rattle.fields.specs.Fields.{Ends, same as same_list};
ghost use Rattle.fields.specs.Parts.{FieldOf};
ghost use Rattle.fields.specs.Written.{Wrote, columns, row};
ghost use Rattle.fields.specs.Decimal.{digits_of, number_of, decimal};

// Every byte of a text is one of these.
#[derive(Clone, Copy)]
pub enum Class {
    Digit,
    Lower,
    Tab,
    LineEnd,
    Other,
}

pub fn class_of(b: u8) -> Class
    ensures { result ≡ class_of b }
{
    match b {
        b'0'..=b'9' => Class::Digit,
        b'a'..=b'z' => Class::Lower,
        b'\t' => Class::Tab,
        b'\n' => Class::LineEnd,
        _ => Class::Other,
    }
}

// A line: where it ends and how many fields it has.
#[derive(Clone, Copy)]
pub struct Line {
    pub end: usize,
    pub fields: usize,
}

// The line that begins at a place, if it keeps the layout. Each byte's class decides the next step: go on, count a field, end the line, or break off.
#[tactic(auto, unfolding(crate::specs::Bytes::line_of))]
pub fn line_at(s: &[u8], at: usize) -> Option<Line>
    requires { at ≤ length s.now }
    ensures { result ≡ line_of s.now at }
{
    let mut fields = 1;
    for i in at..s.len() {
        match class_of(s[i]) {
            Class::Digit | Class::Lower => {}
            Class::Tab => fields += 1,
            Class::LineEnd => return Some(Line { end: i, fields }),
            Class::Other => return None,
        }
    }
    None
}

// The place of the first byte sep at or after at, or the length.
pub fn end_of(s: &[u8], at: usize, sep: u8) -> usize
    requires { at ≤ length s.now }
    ensures { Ends s.now at sep result }
{
    for i in at..s.len() {
        if s[i] == sep {
            return i;
        }
    }
    s.len()
}

// The place after `end`, or the length.
pub fn after(s: &[u8], end: usize) -> usize
    requires { end ≤ length s.now }
    ensures { result ≡ min (end + 1) (length s.now) }
{
    (end + 1).min(s.len())
}

// The n-th part of s between bytes sep, counted from 0. Where there is none it is an empty part at the beginning, and no None: `FieldOf` fixes it for every n.
#[tactic(auto, using(crate::proofs::Split::parts_on), unfolding(crate::specs::Fields::field_at))]
pub fn part<'a>(s: &'a [u8], sep: u8, n: usize) -> &'a [u8]
    ensures { FieldOf sep s.entry n result }
{
    let mut at = 0;
    for _ in 0..n {
        let e = end_of(s, at, sep);
        if e == s.len() {
            return &s[0..0];
        }
        at = e + 1;
    }
    let e = end_of(s, at, sep);
    &s[at..e]
}

// The n-th field of a line, in the caller's own memory.
pub fn field<'a>(line: &'a [u8], n: usize) -> &'a [u8]
    ensures { FieldOf 9 line.entry n result }
{
    part(line, 9, n)
}

// Whether two texts are the same.
pub fn same(a: &[u8], b: &[u8]) -> bool
    ensures { result ≡ same_list a.now b.now }
{
    a == b
}

// The number that a text says: decimal, 1 to 6 digits, no sign; zeros may lead.
#[tactic(auto, unfolding(crate::specs::Decimal::digits_of, crate::specs::Decimal::figured))]
pub fn read_digits(s: &[u8]) -> Option<usize>
    ensures { result ≡ digits_of s.now }
{
    if s.is_empty() || s.len() > 6 {
        return None;
    }
    let mut v = 0;
    for b in s {
        match b {
            b'0'..=b'9' => v = 10 * v + (*b - b'0') as usize,
            _ => return None,
        }
    }
    Some(v)
}

// Such a number with no leading zero but 0 itself.
#[tactic(auto, unfolding(crate::specs::Decimal::number_of, crate::specs::Decimal::numeral, crate::specs::Decimal::digits_of))]
pub fn read_number(s: &[u8]) -> Option<usize>
    ensures { result ≡ number_of s.now }
{
    if s.len() > 1 && s[0] == b'0' {
        return None;
    }
    read_digits(s)
}

// Writes a number in decimal from at on, and answers where it ends.
// The digits go into lent bytes from the first on, and the last is known first: so all the others are written by a call, and no text is made on a heap.
#[tactic(auto, using(crate::proofs::Written::digits_written))]
pub fn put_number(out: &mut [u8], at: usize, n: u64) -> usize
    requires { at + length (decimal n) ≤ length out.old }
    ensures { Wrote (decimal n) out.old at out.new result }
{
    if n < 10 {
        out[at] = b'0' + n as u8;
        return at + 1;
    }
    let last = put_number(out, at, n / 10);
    out[last] = b'0' + (n % 10) as u8;
    last + 1
}

// Writes the bytes of a word from at on, and answers where they end. By a loop, and not by `copy_from_slice`, for which an archive for C would need the C library's
// memmove.
pub fn put_word(out: &mut [u8], at: usize, word: &[u8]) -> usize
    requires { at + length word.now ≤ length out.old }
    ensures { Wrote word.now out.old at out.new result }
{
    for i in 0..word.len() {
        out[at + i] = word[i];
    }
    at + word.len()
}

// Writes a tab and a number.
fn put_column(out: &mut [u8], at: usize, n: u64) -> usize
    requires { at + 1 + length (decimal n) ≤ length out.old }
    ensures { Wrote (9 ∷ decimal n) out.old at out.new result }
{
    out[at] = b'\t';
    put_number(out, at + 1, n)
}

// Writes each number after a tab, then the line end.
#[tactic(auto, using(crate::proofs::Written::columns_length, crate::proofs::Written::columns_more))]
fn put_columns(out: &mut [u8], at: usize, numbers: &[u64]) -> usize
    requires { at + length (columns numbers.now) ≤ length out.old }
    ensures { Wrote (columns numbers.now) out.old at out.new result }
{
    let mut next = at;
    for n in numbers {
        next = put_column(out, next, *n);
    }
    out[next] = b'\n';
    next + 1
}

// Writes a line: a word and its numbers.
pub fn put_row(out: &mut [u8], at: usize, word: &[u8], numbers: &[u64]) -> usize
    requires { at + length (row word.now numbers.now) ≤ length out.old }
    ensures { Wrote (row word.now numbers.now) out.old at out.new result }
{
    let next = put_word(out, at, word);
    put_columns(out, next, numbers)
}
