// The header of a binary Netpbm file, the same for every kind: PPM, PGM and others.
#![tactic(auto)]

ghost use Rattle.std.specs.Prelude.{◌≡◌, false, ◌+◌, ◌≤◌, length, drop, IfSome};
ghost use Rattle.pnm.specs.Header.{ends, white, gap_in, run, header_of, token_at, magic, closed};

// A header: width, height, maximum, and where the pixels begin.
#[derive(Clone, Copy)]
pub struct Head {
    pub width: usize,
    pub height: usize,
    pub maximum: usize,
    pub start: usize,
}

// A number behind a gap: its value, and where it ends.
#[derive(Clone, Copy)]
struct Token {
    value: usize,
    end: usize,
}

// Whether a byte ends a comment: CR or LF.
fn ends_line(b: u8) -> bool
    ensures { result ≡ ends b }
{
    matches!(b, b'\r' | b'\n')
}

// Whether a byte is white: blank, tab, CR or LF.
fn is_white(b: u8) -> bool
    ensures { result ≡ white b }
{
    matches!(b, b' ' | b'\t') || ends_line(b)
}

// Where the gap that begins at a place ends.
fn past_gap(s: &[u8], at: usize) -> usize
    requires { at ≤ length s.now }
    ensures { result ≡ at + gap_in false (drop at s.now) }
{
    let mut inside = false;
    for i in at..s.len() {
        let b = s[i];
        if inside {
            inside = !ends_line(b);
        } else if b == b'#' {
            inside = true;
        } else if !is_white(b) {
            return i;
        }
    }
    s.len()
}

// Where the digits that begin at a place end.
fn past_digits(s: &[u8], at: usize) -> usize
    requires { at ≤ length s.now }
    ensures { result ≡ at + run (drop at s.now) }
{
    for i in at..s.len() {
        if !s[i].is_ascii_digit() {
            return i;
        }
    }
    s.len()
}

// The number behind the gap that begins at a place.
#[tactic(auto, using(crate::proofs::Tokens::reads), unfolding(crate::specs::Header::from, crate::specs::Header::past, crate::specs::Header::figures))]
fn number_at(s: &[u8], at: usize) -> Option<Token>
    requires { at ≤ length s.now }
    ensures token { result ≡ token_at s.now at }
    ensures within { IfSome result (λ t. t.end ≤ length s.now) }
{
    let start = past_gap(s, at);
    if start == at {
        return None;
    }
    let end = past_digits(s, start);
    let value = fields::read_digits(&s[start..end])?;
    Some(Token { value, end })
}

// Whether a file begins with P and the byte of its kind.
#[tactic(auto, unfolding(crate::specs::Header::magic))]
fn begins(s: &[u8], kind: u8) -> bool
    ensures { result ≡ magic kind s.now }
{
    s.len() >= 2 && s[0] == b'P' && s[1] == kind
}

// Whether a white byte stands at a place.
#[tactic(auto, unfolding(crate::specs::Header::closed))]
fn closes(s: &[u8], at: usize) -> bool
    ensures { result ≡ closed s.now at }
{
    at < s.len() && is_white(s[at])
}

// The header of a file of a kind: b'6' for PPM, b'5' for PGM.
#[tactic(auto, using(crate::proofs::Tokens::tells))]
pub fn header(s: &[u8], kind: u8) -> Option<Head>
    ensures { result ≡ header_of kind s.now }
{
    if !begins(s, kind) {
        return None;
    }
    let width = number_at(s, 2)?;
    let height = number_at(s, width.end)?;
    let maximum = number_at(s, height.end)?;
    if !closes(s, maximum.end) {
        return None;
    }
    Some(Head {
        width: width.value,
        height: height.value,
        maximum: maximum.value,
        start: maximum.end + 1,
    })
}
