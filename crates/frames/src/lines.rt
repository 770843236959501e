// The lines of the input: a line that lies within one block is answered where it stands, any other is held until it
// ends.
ghost use Rattle.std.specs.Prelude.{◌≡◌, ◌++◌, IfOk, position, take};
ghost use Rattle.frames.specs.Line.{after_line, is_line_end};

use crate::output::Output;
use arrayvec::ArrayVec;
use frame::Answer;
use json_model::limits::LONGEST_LINE;
use std::io;
use std::io::Write;

// How many characters of a line are held: one more than the longest has, which is enough to tell that it is too long.
const HELD: usize = LONGEST_LINE + 1;

// How many frames there were and how many of them were accepted, and the output.
#[derive(Drop)]
struct Answers<W: Write> {
    frames: u64,
    ok: u64,
    output: Output<W>,
}

fn is_ok(a: &Answer) -> bool {
    matches!(a, Answer::Binary(Ok(())) | Answer::Fractured(Ok(())))
}

impl<W: Write> Answers<W> {
    // The answer of a line, counted and said.
    fn say(&mut self, line: &[u8]) -> io::Result<()> {
        let a = frame::answer_to(line);
        self.frames = self.frames.saturating_add(1);
        if is_ok(&a) {
            self.ok = self.ok.saturating_add(1);
        }
        let mut text = [0u8; 80];
        let n = frame::text(self.frames, a, &mut text);
        self.output.say(&text[..n])
    }

    // The total, and all that waits.
    fn say_total(&mut self) -> io::Result<()> {
        let mut text = [0u8; 80];
        let n = frame::total(self.frames, self.ok, &mut text);
        self.output.say(&text[..n])?;
        self.output.flush()
    }
}

// Where the first LF of a block stands, if there is one.
fn line_end(block: &[u8]) -> Option<usize>
    ensures { result ≡ position is_line_end block.now }
{
    block.iter().position(|c| *c == b'\n')
}

// The line that has not ended, and the answers to those before it.
#[derive(Drop)]
pub(crate) struct Lines<W: Write> {
    held: ArrayVec<u8, HELD>,
    answers: Answers<W>,
}

impl<W: Write> Lines<W> {
    pub(crate) fn new(to: W) -> Lines<W> {
        Lines {
            held: ArrayVec::new(),
            answers: Answers {
                frames: 0,
                ok: 0,
                output: Output::new(to),
            },
        }
    }

    // What the output starts with.
    pub(crate) fn start(&mut self) -> io::Result<()> {
        self.answers.output.say(b"frames\n")
    }

    // Holds as much of a part of a line as there is room for.
    fn hold(&mut self, part: &[u8])
        ensures { self.new.held.items ≡ take HELD (self.old.held.items ++ part.now) }
    {
        let n = self.held.remaining_capacity().min(part.len());
        self.held.try_extend_from_slice(&part[..n]).unwrap();
    }

    // The end of the line that is held.
    fn end_held(&mut self) -> io::Result<()> {
        let said = self.answers.say(&self.held);
        self.held.clear();
        said
    }

    // The last part of a line.
    fn end_line(&mut self, part: &[u8]) -> io::Result<()> {
        if self.held.is_empty() {
            return self.answers.say(part);
        }
        self.hold(part);
        self.end_held()
    }

    // Takes the first line of a block, or the part of it that the block has, and answers what follows.
    fn take_line<'b>(&mut self, block: &'b [u8]) -> io::Result<&'b [u8]>
        ensures { IfOk result (λ rest. rest.now ≡ after_line block.now) }
    {
        match line_end(block) {
            Some(end) => {
                self.end_line(&block[..end])?;
                Ok(&block[end + 1..])
            }
            None => {
                self.hold(block);
                Ok(&[])
            }
        }
    }

    // Takes all lines of a block: each turn takes one, and no index counts them.
    pub(crate) fn take_block(&mut self, block: &[u8]) -> io::Result<()> {
        let mut rest = block;
        while !rest.is_empty() {
            rest = self.take_line(rest)?;
        }
        Ok(())
    }

    // Writes the answers that wait.
    pub(crate) fn flush(&mut self) -> io::Result<()> {
        self.answers.output.flush()
    }

    // The end of the input: a line that is held counts, then comes the total.
    pub(crate) fn finish(&mut self) -> io::Result<()> {
        if !self.held.is_empty() {
            self.end_held()?;
        }
        self.answers.say_total()
    }
}
