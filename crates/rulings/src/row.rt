// One row of the rulings: its question is answered, and the answer held to the one that the row gives.
use crate::parse::bytes;
use crate::spell::refusal;
use crate::unanswered::Unanswered;
use crate::{binary, fractured};
use std::alloc::Global;
use std::io;

// The mark before the answer that a row gives.
const MARK: &[u8] = b" = ";

// How many bytes a document has at most.
const MOST_BYTES: usize = 2048;

// How many bytes a row and its answer have at most. A longer answer is cut: what the program writes may not change.
const ROOM: usize = 16384;

// How many words after the document are looked at: three options, a question of three words, and one that is too many.
const ASKED_WORDS: usize = 7;

// Spells the answer to a row's question.
fn ask(alloc: Global, row: &[u8]) -> Result<String, Unanswered> {
    let mut words = row.split(|c| *c == b' ');
    let (Some(format), Some(doc)) = (words.next(), words.next()) else {
        return Err(Unanswered::Unreadable);
    };
    let doc = bytes(alloc, doc, MOST_BYTES)?;
    let asked: Vec<&[u8]> = words.take(ASKED_WORDS).collect(alloc)?;
    match format {
        b"B" => binary::answer(alloc, &doc, &asked),
        b"F" => fractured::answer(alloc, &doc, &asked),
        _ => Err(Unanswered::Unreadable),
    }
}

// Writes a row up to its mark with its answer, put together in `text`, and answers whether the given one agrees.
fn compare(
    rt: &impl Print,
    text: &mut Vec<u8>,
    row: &[u8],
    answer: &[u8],
    given: &[u8],
) -> io::Result<bool> {
    text.clear();
    text.extend_from_slice(row)?;
    text.extend_from_slice(answer)?;
    rt.write_all(text)?;
    if answer == given {
        println!(rt)?;
        return Ok(true);
    }
    print!(rt; " WRONG, given: ")?;
    rt.write_all(given)?;
    println!(rt)?;
    Ok(false)
}

fn unreadable(rt: &impl Print, line: &[u8]) -> io::Result<bool> {
    print!(rt; "UNREADABLE ")?;
    rt.write_all(line)?;
    println!(rt)?;
    Ok(false)
}

// Runs a row, and answers whether the answer that it gives agrees.
pub(crate) fn run(
    rt: &(impl Print + AllocGlobal),
    text: &mut Vec<u8>,
    line: &[u8],
) -> io::Result<bool> {
    let Some(at) = line.windows(MARK.len()).position(|part| part == MARK) else {
        return unreadable(rt, line);
    };
    let (row, given) = line.split_at(at + MARK.len());
    let answer = match ask(rt.alloc(), &line[..at]) {
        Ok(answer) => answer,
        Err(Unanswered::Refused(r)) => refusal(rt.alloc(), r)?,
        Err(Unanswered::Unreadable) => return unreadable(rt, line),
        Err(Unanswered::Memory(e)) => return Err(e.into()),
    };
    let room = ROOM.saturating_sub(row.len()).min(answer.len());
    if room == 0 {
        return unreadable(rt, line);
    }
    compare(rt, text, row, &answer.as_bytes()[..room], given)
}
