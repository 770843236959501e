// The bench: reads frames from standard input, one a line in hexadecimal, and writes the answer of each and the total.
#![tactic(auto)]

mod failure;
mod lines;
mod output;

use failure::Failure;
use lines::Lines;
use output::BLOCK;
use std::io::{ErrorKind, Read, Write};
use std::process::ExitCode;

// A run: the input, the block that is read of it, and its lines.
#[derive(Drop)]
struct Bench<R: Read, W: Write> {
    input: R,
    block: [u8; BLOCK],
    lines: Lines<W>,
}

impl<R: Read, W: Write> Bench<R, W> {
    // Reads once and takes what came, and answers whether the input has ended. A read that a signal interrupted is
    // tried again, and any other that fails ends the run.
    fn read_once(&mut self) -> Result<bool, Failure> {
        match self.input.read(&mut self.block) {
            Ok(0) => Ok(true),
            Ok(n) => {
                self.lines
                    .take_block(&self.block[..n])
                    .map_err(Failure::Write)?;
                Ok(false)
            }
            Err(e) if e.kind() == ErrorKind::Interrupted => Ok(false),
            Err(e) => Err(Failure::Read(e)),
        }
    }

    // Reads to the end of the input, or until a read or a write fails, and answers whether the input has ended. A
    // proved loop has to end, so this one has as many turns as no run uses up.
    fn read_all(&mut self) -> Result<bool, Failure> {
        for _ in 0..u64::MAX {
            if self.read_once()? {
                return Ok(true);
            }
        }
        Ok(false)
    }

    // After a read that failed come the answers that wait, to lines that were read whole: none to the line that was
    // cut, and no total. After a write that failed nothing more is written.
    fn run(&mut self) -> Result<(), Failure> {
        self.lines.start().map_err(Failure::Write)?;
        match self.read_all() {
            Ok(true) => self.lines.finish().map_err(Failure::Write),
            Ok(false) => self.lines.flush().map_err(Failure::Write),
            Err(Failure::Read(read)) => match self.lines.flush() {
                Ok(()) => Err(Failure::Read(read)),
                Err(write) => Err(Failure::Both { read, write }),
            },
            Err(failure) => Err(failure),
        }
    }
}

// A run that failed is named on standard error and has status 2; where standard error fails too, the status alone
// tells.
fn main(rt: HostRuntime) -> ExitCode {
    let mut bench = Bench {
        input: rt.stdin(),
        block: [0; BLOCK],
        lines: Lines::new(rt.stdout()),
    };
    match bench.run() {
        Ok(()) => ExitCode::SUCCESS,
        Err(failure) => {
            let _ = eprintln!(rt; "{failure}");
            ExitCode::from(2)
        }
    }
}
