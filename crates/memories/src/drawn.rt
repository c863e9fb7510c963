//! A node drawn by hand in words: what both memories read of it, and what writes make of words whose bits are all set.
use crate::calls::Call;
use nodes::{LAST_POSITION, MOST_CHILDREN, NodeWrite};
use records::{Record, Records};
use words::Words;

// Marks at positions 1, 10 and 63; children 0, 4 and 63; a count of 3; hops at the marks.
const DRAWN: [u64; 36] = [
    0x8000_0000_0000_0402,
    0x0000_0000_0000_0001,
    0x0000_0000_0008_0000,
    0,
    0,
    0,
    0,
    0,
    0,
    0,
    0,
    0,
    0,
    0,
    0,
    0,
    0,
    0,
    0,
    0,
    0,
    0,
    0x0000_0000_000c_0002,
    0x0000_0000_0000_7000,
    0,
    0x0000_0000_0000_0fff,
    0,
    0,
    0,
    0,
    0,
    0,
    0,
    0,
    0,
    0x0000_0010_0000_0000,
];

// The same fields, each written by a call.
const WRITES: [Call; 8] = [
    Call::SetBitmap(1, 0x8000_0000_0000_0402),
    Call::SetCount(1, 3),
    Call::SetChild(1, 0, 1),
    Call::SetChild(1, 4, 2),
    Call::SetChild(1, 63, 2),
    Call::SetHop(1, 1, 7),
    Call::SetHop(1, 10, 4095),
    Call::SetHop(1, 63, 1),
];

// Three nodes, and two words behind them.
const WORDS: usize = 110;

const SET: u64 = 0xffff_ffff_ffff_ffff;

// What a memory answers to a reading of node 1, where that is no 0.
fn tell<M: NodeWrite>(
    rt: &HostRuntime,
    memory: &mut M,
    name: &str,
    call: Call,
) -> anyhow::Result<()> {
    match call.answer(memory) {
        Ok(0) => {}
        Ok(number) => println!(rt; "  {name} {number}")?,
        Err(fault) => println!(rt; "  {name} {fault}")?,
    }
    Ok(())
}

// The fields of node 1.
fn read<M: NodeWrite>(rt: &HostRuntime, memory: &mut M) -> anyhow::Result<()> {
    let heap = rt.alloc();
    tell(rt, memory, "bitmap", Call::Bitmap(1))?;
    tell(rt, memory, "count", Call::Count(1))?;
    for index in 0..MOST_CHILDREN {
        let name = format!(in heap; "child {index}:")?;
        tell(rt, memory, name.as_str(), Call::Child(1, index))?;
    }
    for position in 1..=LAST_POSITION {
        let name = format!(in heap; "hop {position}:")?;
        tell(rt, memory, name.as_str(), Call::Hop(1, position))?;
    }
    Ok(())
}

// Makes the writes.
fn write<M: NodeWrite>(rt: &HostRuntime, memory: &mut M) -> anyhow::Result<()> {
    for call in WRITES {
        if let Err(fault) = call.answer(memory) {
            println!(rt; "  {fault}")?;
        }
    }
    Ok(())
}

pub(crate) fn show(rt: &HostRuntime) -> anyhow::Result<()> {
    let heap = rt.alloc();

    let mut words = [SET; WORDS];
    words[36..72].copy_from_slice(&DRAWN);
    println!(rt; "a node drawn in words reads")?;
    read(rt, &mut Words::new(&mut words))?;

    let blank = Record {
        bitmap: 0,
        count: 0,
        children: [0; 64],
        hops: [0; 63],
    };
    let mut records = Records::filled(heap, 3, blank)?;
    write(rt, &mut records)?;
    println!(rt; "the same node written in records reads")?;
    read(rt, &mut records)?;

    let mut words = [SET; WORDS];
    write(rt, &mut Words::new(&mut words))?;
    println!(rt; "of words whose bits are all set the writes leave")?;
    for (place, word) in words.iter().enumerate() {
        if *word != SET {
            println!(rt; "  word {place}: {word:016x}")?;
        }
    }
    Ok(())
}
