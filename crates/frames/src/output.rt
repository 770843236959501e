// The output, gathered into a block and written when the block is full.
ghost use Rattle.std.specs.Prelude.{◌≡◌, ◌≤◌, [], length, OnOk};
ghost use Rattle.std.specs.Io.KnownBytes.{Appends};
ghost use Rattle.frames.specs.Said.{Says};

use arrayvec::ArrayVec;
use std::io;
use std::io::Write;

// How many bytes a block has, of the input and of the output.
pub(crate) const BLOCK: usize = 65536;

// Where the output goes, and what waits to be written.
#[derive(Drop)]
pub(crate) struct Output<W: Write> {
    to: W,
    waiting: ArrayVec<u8, BLOCK>,
}

impl<W: Write> Output<W> {
    pub(crate) fn new(to: W) -> Output<W>
        ensures { (result.to ≡ to) × (result.waiting.items ≡ []) }
    {
        Output {
            to,
            waiting: ArrayVec::new(),
        }
    }

    // Writes what waits. After a failed write nothing waits either.
    pub(crate) fn flush(&mut self) -> io::Result<()>
        ensures empty { self.new.waiting.items ≡ [] }
        ensures written { OnOk result
            (Appends (W.contents self.old.to) (W.contents self.new.to) self.old.waiting.items) }
    {
        let written = self.to.write_all(&self.waiting);
        self.waiting.clear();
        written
    }

    // Puts a text after what waits, or first writes that, if there is no room. A text that is longer than the block is
    // left out.
    pub(crate) fn say(&mut self, text: &[u8]) -> io::Result<()>
        ensures { length text.now ≤ 65536 → OnOk result
            (Says (W.contents self.old.to) self.old.waiting.items
            (W.contents self.new.to) self.new.waiting.items text.now) }
    {
        if BLOCK < text.len() {
            return Ok(());
        }
        if self.waiting.remaining_capacity() < text.len() {
            self.flush()?;
        }
        self.waiting.try_extend_from_slice(text).unwrap();
        Ok(())
    }
}
