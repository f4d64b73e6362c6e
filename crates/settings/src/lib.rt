// A field's settings over the house's: the value of a name, as the caller's own part of one of two lent texts.
#![tactic(auto)]

ghost use Rattle.std.specs.Prelude.{◌≡◌, length};
ghost use Rattle.fields.specs.Fields.{split};
ghost use Rattle.settings.specs.Texts.{word, kept, good, first_with};
ghost use Rattle.settings.specs.Promise.{source_of, ValueOf, Setting, Refuses};

use fields::Class;
use rules::Refusal;

// ---- what is well formed

// Whether s is a name or a value: 1 to 16 lower-case letters or digits.
fn is_word(s: &[u8]) -> bool
    ensures { result ≡ word s.now }
{
    if s.len() == 0 {
        return false;
    }
    if s.len() > 16 {
        return false;
    }
    for b in s {
        match fields::class_of(*b) {
            Class::Digit | Class::Lower => {}
            _ => return false,
        }
    }
    true
}

// Whether a line of so many fields is `keep`, a name and a value.
fn is_kept(line: &[u8], count: usize) -> bool
    requires { count ≡ length (split 9 line.now) }
    ensures { result ≡ kept line.now }
{
    if !fields::same(fields::field(line, 0), b"keep") {
        return false;
    }
    if count != 3 {
        return false;
    }
    if !is_word(fields::field(line, 1)) {
        return false;
    }
    is_word(fields::field(line, 2))
}

// Whether every line of a text is such a line and is ended. The next line begins where this one's end says: the place is no counter.
fn is_good(text: &[u8]) -> bool
    ensures { result ≡ good text.now }
{
    let mut at = 0;
    while at < text.len() {
        match fields::line_at(text, at) {
            Some(line) => {
                if !is_kept(&text[at..line.end], line.fields) {
                    return false;
                }
                at = line.end + 1;
            }
            None => return false,
        }
    }
    true
}

// ---- where a name's value stands

// The first line with a name, by its number from 0. The last part of the text is no line, so an iterator over parts would have to know which is the last.
fn first_with(text: &[u8], name: &[u8]) -> Option<usize>
    ensures { result ≡ first_with text.now name.now }
{
    let mut at = 0;
    let mut k = 0;
    while at < text.len() {
        let end = fields::end_of(text, at, b'\n');
        if end == text.len() {
            return None;
        }
        if fields::same(fields::field(&text[at..end], 1), name) {
            return Some(k);
        }
        at = end + 1;
        k += 1;
    }
    None
}

// The value of line k, in the text's own memory.
fn value_of<'a>(text: &'a [u8], k: usize) -> &'a [u8]
    ensures { ValueOf text.entry k result }
{
    fields::field(fields::part(text, b'\n', k), 2)
}

// What answers: a line of the field text, or a line of the house text.
#[derive(Clone, Copy, Debug, PartialEq, Eq)]
enum Source {
    Field(usize),
    House(usize),
}

// All lines are judged before the name.
fn choose(field: &[u8], house: &[u8], name: &[u8]) -> Result<Source, Refusal>
    ensures { result ≡ source_of field.now house.now name.now }
{
    if !is_good(field) {
        return Err(Refusal::Layout);
    }
    if !is_good(house) {
        return Err(Refusal::Layout);
    }
    if !is_word(name) {
        return Err(Refusal::Name);
    }
    match first_with(field, name) {
        Some(k) => Ok(Source::Field(k)),
        None => match first_with(house, name) {
            Some(k) => Ok(Source::House(k)),
            None => Err(Refusal::Name),
        },
    }
}

// ---- the calls

// The value of the name: the field text's own part where that has the name, otherwise the house text's. Empty exactly on a refusal, and no Err: `Setting`
// fixes the part for every input, and the call cannot fail.
pub fn setting<'a>(field: &'a [u8], house: &'a [u8], name: &[u8]) -> &'a [u8]
    ensures { Setting field.entry house.entry name.now result }
{
    match choose(field, house, name) {
        Ok(Source::Field(k)) => value_of(field, k),
        Ok(Source::House(k)) => value_of(house, k),
        Err(_) => &field[0..0],
    }
}

// Why such a call is refused, if it is.
#[tactic(auto, using(crate::proofs::Answers::why_is))]
pub fn setting_refusal(field: &[u8], house: &[u8], name: &[u8]) -> Option<Refusal>
    ensures { Refuses field.now house.now name.now result }
{
    choose(field, house, name).err()
}
