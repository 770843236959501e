// BinaryJson: the deepest document and one level more, with marks enough.
use crate::say::Said;
use std::alloc::{AllocError, Global};
use std::io;

fn put(doc: &mut Vec<u8>, word: u32) -> Result<(), AllocError> {
    doc.extend_from_slice(&word.to_le_bytes())
}

// Arrays in each other: each has its Meta and its Entry, which names the next, but the last is empty. The string index
// follows it.
fn nested(alloc: Global, levels: u8) -> Result<Vec<u8>, AllocError> {
    let levels = u32::from(levels);
    let mut doc = Vec::new(alloc);
    put(&mut doc, 32 * (8 * levels) + 1)?;
    for level in 1..levels {
        put(&mut doc, 0x20)?;
        put(&mut doc, 32 * (8 * level + 4) + 5)?;
    }
    put(&mut doc, 0)?;
    put(&mut doc, 0)?;
    Ok(doc)
}

pub(crate) fn run(rt: &(impl Print + AllocGlobal)) -> io::Result<()> {
    for levels in [64, 65] {
        let doc = nested(rt.alloc(), levels)?;
        let mut marks = [0u8; 256];
        println!(rt;
            "B depth {levels} = {}",
            Said(binary_json::check(&doc, &mut marks))
        )?;
    }
    Ok(())
}
