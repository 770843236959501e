// Documents at the limits, as docs/format/SPECIMENS.md, section 2, lists them: depths, strings, keys, indices and a
// full key table. Each line has a case and the answer; the file stdout beside src/ has the answers that the page asks
// for. The longest documents are not made here: tests/c/specimens.c and the Rust package's tests run them.
#![tactic(auto)]

mod binary;
mod fractured;
mod say;

use std::io;

fn main(rt: HostRuntime) -> io::Result<()> {
    binary::run(&rt)?;
    fractured::run(&rt)
}
