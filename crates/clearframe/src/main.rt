// Reads the program's text from standard input and writes the answer. An input that reaches 8,706 bytes is longer than any good text, and its answer
// is that of its first 8,706 bytes (`long` in the proofs of text), so the rest is not read.
#![tactic(auto)]

use std::io;
use std::io::Read;

fn main(rt: HostRuntime) -> io::Result<()> {
    let mut input = Vec::new(rt.alloc());
    rt.reader().take(8706).read_to_end(&mut input)?;
    let mut out = [0u8; 12690];
    let m = text::answer(&input, &mut out);
    rt.write_all(&out[..m])
}
