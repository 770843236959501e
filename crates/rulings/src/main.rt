// Runs the rows of the rulings, which are the lines of standard input: each row is written with the answer that the
// reader gives, and the last line says how many rows there were and how many of the given answers agree.
#![tactic(auto)]

mod binary;
mod fractured;
mod parse;
mod questions;
mod row;
mod spell;
mod unanswered;

use std::io;
use std::io::{BufReader, Read};

// How many bytes are read at most; an input of as many is too long.
const MOST_READ: usize = 65536;

// Runs each line of the text. An LF ends a line, and the last may lack it.
fn run_lines(rt: &(impl Print + AllocGlobal), text: &[u8]) -> io::Result<()> {
    let mut rows = 0u64;
    let mut agree = 0u64;
    let mut written = Vec::new(rt.alloc());
    if !text.is_empty() {
        for line in text
            .strip_suffix(b"\n")
            .unwrap_or(text)
            .split(|c| *c == b'\n')
        {
            rows = rows.saturating_add(1);
            if row::run(rt, &mut written, line)? {
                agree = agree.saturating_add(1);
            }
        }
    }
    println!(rt; "rows {rows} agree {agree}")
}

fn main(rt: HostRuntime) -> io::Result<()> {
    // Each read asks for all that may still come, so that an input in messages loses none of their bytes.
    let input = rt.stdin().take(MOST_READ as u64);
    let mut text = Vec::new(rt.alloc());
    let read = BufReader::with_capacity(rt.alloc(), MOST_READ, input)?.read_to_end(&mut text)?;
    if read == MOST_READ {
        return println!(rt; "input too long");
    }
    run_lines(&rt, &text)
}
