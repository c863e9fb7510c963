//! Two memories of nodes, one of records and one of words, that hold the same fields.
use crate::calls::{Answer, Call, of_memory};
use crate::layout::{BLANK, Layout};
use crate::plain::plain_lookup;
use crate::random::word;
use anyhow::ensure;
use faults::Fault;
use nodes::{LAST_POSITION, MOST_CHILDREN, MOST_NODES, NodeWrite};
use plan::Plan;
use records::{Record, Records};
use std::alloc::{AllocError, Global};
use trials::dice::Dice;
use trials::numbers::Numbered;
use trials::tally::settled;
use words::Words;

#[derive(Drop)]
pub(crate) struct Pair<'a> {
    pub records: Records,
    pub words: Words<'a>,
}

impl<'a> Pair<'a> {
    // Two memories that held something else, with these fields written by calls.
    pub(crate) fn written(
        before: Vec<Record>,
        words: &'a mut [u64],
        fields: &[Record],
    ) -> Result<Pair<'a>, Fault> {
        let mut records = Records::new(before);
        let mut words = Words::new(words);
        write(&mut records, fields)?;
        write(&mut words, fields)?;
        Ok(Pair { records, words })
    }

    // What both answer to a call; a lookup is also done in the plainest way.
    pub(crate) fn ask<A: Numbered>(
        &mut self,
        heap: Global,
        plan: &Plan<A>,
        layout: &Layout,
        call: Call,
    ) -> anyhow::Result<Result<Answer, Fault>> {
        let said = of_memory(&mut self.words, plan, call);
        let other = of_memory(&mut self.records, plan, call);
        ensure!(said == other, "{call}: the memories differ");
        if let Call::Lookup(value) = call {
            let plain = settled(plain_lookup(heap, &mut self.records, layout, value))?;
            ensure!(said == plain, "{call}: bit by bit another answer");
        }
        Ok(said)
    }
}

// A record with random fields, as words can hold them.
fn any_record(dice: &mut Dice) -> Record {
    let mut record = BLANK;
    record.bitmap = word(dice);
    record.count = dice.roll(128) as u8;
    for child in record.children.iter_mut() {
        *child = dice.roll(MOST_NODES);
    }
    for hop in record.hops.iter_mut() {
        *hop = dice.roll(4096) as u16;
    }
    record
}

// So many records with random fields.
pub(crate) fn any_records(
    heap: Global,
    dice: &mut Dice,
    size: u32,
) -> Result<Vec<Record>, AllocError> {
    let mut records = vec![in heap; BLANK; size as usize]?;
    for record in records.iter_mut() {
        *record = any_record(dice);
    }
    Ok(records)
}

// Random words for so many nodes, and a few behind them.
pub(crate) fn any_words(heap: Global, dice: &mut Dice, size: u32) -> Result<Vec<u64>, AllocError> {
    let mut words = vec![in heap; 0; 36 * size as usize + 5]?;
    for place in words.iter_mut() {
        *place = word(dice);
    }
    Ok(words)
}

// Writes every field of a node by a call.
fn write_node<M: NodeWrite>(memory: &mut M, node: u32, record: &Record) -> Result<(), Fault> {
    memory.set_bitmap(node, record.bitmap)?;
    memory.set_count(node, record.count)?;
    for index in 0..MOST_CHILDREN {
        let child = record.children.get(usize::from(index)).copied();
        memory.set_child(node, index, child.unwrap_or(0))?;
    }
    for position in 1..=LAST_POSITION {
        let hop = record
            .hops
            .get(usize::from(position).wrapping_sub(1))
            .copied();
        memory.set_hop(node, position, hop.unwrap_or(0))?;
    }
    Ok(())
}

// Writes every field of every node.
fn write<M: NodeWrite>(memory: &mut M, fields: &[Record]) -> Result<(), Fault> {
    for node in 0..memory.size() {
        if let Some(record) = fields.get(node as usize) {
            write_node(memory, node, record)?;
        }
    }
    Ok(())
}
