// Fractured JSON: depths, strings, keys, indices and the key table.
use crate::say::Said;
use json_model::Span;
use std::alloc::{AllocError, Global};
use std::fmt::Display;
use std::io;
use std::iter::repeat_n;

// A key list without a name; also in `rulings` and `frame`: a constant of a reader's crate would be no plainer.
const NO_NAMES: [u8; 3] = [0; 3];

// The verdict, the number of pairs and the last pair.
fn check_with(
    rt: &impl Print,
    case: impl Display + Drop,
    doc: &[u8],
    keys: &mut [u32],
) -> io::Result<()> {
    let checked = fractured_json::check(doc, &NO_NAMES, keys);
    let count = checked.count;
    print!(rt; "F {case} = {} {count}", Said(checked.verdict))?;
    if let Some([.., place, len]) = keys.get(..count.saturating_mul(2)) {
        print!(rt; " {place} {len}")?;
    }
    println!(rt)
}

fn check(rt: &impl Print, case: impl Display + Drop, doc: &[u8]) -> io::Result<()> {
    check_with(rt, case, doc, &mut [0; 2])
}

// A document that ends with zeros.
fn with_zeros(alloc: Global, start: &[u8], zeros: usize) -> Result<Vec<u8>, AllocError> {
    let mut doc = Vec::from_slice(alloc, start)?;
    doc.extend(repeat_n(0, zeros))?;
    Ok(doc)
}

// ---- depths

// Arrays in each other: the last is empty.
fn nested(alloc: Global, levels: usize) -> Result<Vec<u8>, AllocError> {
    let mut doc = Vec::from_slice(alloc, b"FJ\x01")?;
    for _ in 1..levels {
        doc.push(0x9F)?;
    }
    doc.push(0x9E)?;
    Ok(doc)
}

fn depths(rt: &(impl Print + AllocGlobal)) -> io::Result<()> {
    for levels in [64, 65] {
        check(
            rt,
            format_args!("depth {levels}"),
            &nested(rt.alloc(), levels)?,
        )?;
    }
    Ok(())
}

// ---- strings of 87 and 88 bytes

// The string that is the root: its verdict, its place and its length.
fn string(rt: &impl Print, len: u8, doc: &[u8]) -> io::Result<()> {
    check(rt, format_args!("string {len}"), doc)?;
    print!(rt; "F string {len} stands at and has")?;
    match fractured_json::string(doc, &NO_NAMES, 3) {
        Ok(Span { place, len }) => println!(rt; " {place} {len}"),
        Err(_) => println!(rt; " refused"),
    }
}

fn strings(rt: &(impl Print + AllocGlobal)) -> io::Result<()> {
    string(rt, 87, &with_zeros(rt.alloc(), b"FJ\x01\x6D", 87)?)?;
    string(rt, 88, &with_zeros(rt.alloc(), b"FJ\x01\x0D\x58", 88)?)
}

// ---- keys of 83 and 84 bytes, with null

fn keys(rt: &(impl Print + AllocGlobal)) -> io::Result<()> {
    check(
        rt,
        "key 83",
        &with_zeros(rt.alloc(), b"FJ\x01\x6F\x56", 83 + 1)?,
    )?;
    check(
        rt,
        "key 84",
        &with_zeros(rt.alloc(), b"FJ\x01\x6F\x00\x54", 84 + 1)?,
    )
}

// ---- an index of three bytes: as the length of an immediate key, as a back reference and as a global index

fn indices(rt: &impl Print) -> io::Result<()> {
    for third in [3, 4] {
        for (key, form) in [("immediate", 0), ("back", 1), ("global", 2)] {
            let doc = [b'F', b'J', 1, 0x6F, form, 0xFF, 0xFF, third, 0];
            check(rt, format_args!("{key} FFFF{third:02X}"), &doc)?;
        }
    }
    Ok(())
}

// ---- the key table

// An object with so many members: each has a key of two bytes, which are its number, and null.
fn object(alloc: Global, members: u16) -> Result<Vec<u8>, AllocError> {
    let mut doc = Vec::from_slice(alloc, b"FJ\x01\x11")?;
    doc.extend_from_slice(&members.to_le_bytes())?;
    for i in 0..members {
        doc.push(0x05)?;
        doc.extend_from_slice(&i.to_le_bytes())?;
        doc.push(0x00)?;
    }
    Ok(doc)
}

// A full table, and one key more: then the table has words for one pair more, and room for none.
fn full_table(rt: &(impl Print + AllocGlobal)) -> io::Result<()> {
    for members in [4096, 4097] {
        let mut keys = vec![in rt.alloc(); 0; 2 * usize::from(members)]?;
        check_with(
            rt,
            format_args!("keys {members}"),
            &object(rt.alloc(), members)?,
            &mut keys,
        )?;
    }
    Ok(())
}

pub(crate) fn run(rt: &(impl Print + AllocGlobal)) -> io::Result<()> {
    depths(rt)?;
    strings(rt)?;
    keys(rt)?;
    indices(rt)?;
    full_table(rt)
}
