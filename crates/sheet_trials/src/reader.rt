//! A reader of sheets of the test's own: each field is a number at an index of the bytes.
use crate::message::{Entry, Front, LARGEST, Message};
use std::alloc::{AllocError, AllocFailed, Global};

const LENGTH: u8 = 4;

const STRAY: u8 = 5;

const HOP: u8 = 6;

const CUT: u8 = 11;

const NUMBER: u8 = 12;

const STRIDES: u8 = 13;

const ORDER: u8 = 14;

/// A refusal's number, and where the field at fault starts.
#[derive(Clone, Copy, PartialEq, Eq, Debug)]
pub(crate) struct Refused {
    pub number: u8,
    pub place: usize,
}

/// Why bytes were not read.
#[derive(Clone, Copy)]
pub(crate) enum Stop {
    Refused(Refused),
    NoMemory,
}

impl<T: Drop> From<AllocFailed<T>> for Stop {
    fn from(_e: AllocFailed<T>) -> Stop {
        Stop::NoMemory
    }
}

fn refusal(number: u8, place: usize) -> Stop {
    Stop::Refused(Refused { number, place })
}

// The number that so many bytes from an index on spell, and the index behind them.
fn number(bytes: &[u8], index: usize, size: usize) -> Result<(u128, usize), Stop> {
    let end = index.saturating_add(size);
    match bytes.get(index..end) {
        Some(part) => {
            let mut number: u128 = 0;
            for byte in part {
                number = (number << 8) | u128::from(*byte);
            }
            Ok((number, end))
        }
        None => Err(refusal(CUT, bytes.len())),
    }
}

// The entry at an index, for addresses of so many bits, and the index behind it.
fn entry(width: u32, bytes: &[u8], index: usize) -> Result<(Entry, usize), Stop> {
    let (length, prefix) = number(bytes, index, 1)?;
    let length = (length % 256) as u32;
    if length > width {
        return Err(refusal(LENGTH, index));
    }
    let size = length.div_ceil(8);
    let (value, behind) = number(bytes, prefix, size as usize)?;
    // No shift by 128: of no bytes the number is 0.
    let rest = 128u32.saturating_sub(size.saturating_mul(8));
    let top = value.checked_shl(rest).unwrap_or(0);
    if top.checked_shl(length).unwrap_or(0) != 0 {
        return Err(refusal(STRAY, index));
    }
    let (hop, end) = number(bytes, behind, 2)?;
    if hop > 4095 {
        return Err(refusal(HOP, behind));
    }
    let front = Front { top, length };
    let hop = (hop % 4096) as u16;
    Ok((Entry { front, hop }, end))
}

// So many entries from an index on, each above the one before, and the index behind them.
fn entries(
    heap: Global,
    width: u32,
    bytes: &[u8],
    index: usize,
    count: u32,
) -> Result<(Vec<Entry>, usize), Stop> {
    let mut entries: Vec<Entry> = Vec::new(heap);
    let mut index = index;
    for _ in 0..count {
        let (entry, end) = entry(width, bytes, index)?;
        if entries.last().is_some_and(|last| last.front >= entry.front) {
            return Err(refusal(ORDER, index));
        }
        entries.push(entry)?;
        index = end;
    }
    Ok((entries, index))
}

// A byte for each stride, and how many there are before them; all are there before they are compared.
fn strides(heap: Global, bytes: &[u8], index: usize) -> Result<(Vec<u8>, usize), Stop> {
    let mut strides = Vec::new(heap);
    let (count, mut index) = number(bytes, index, 1)?;
    for _ in 0..count {
        let (stride, end) = number(bytes, index, 1)?;
        strides.push((stride % 256) as u8)?;
        index = end;
    }
    Ok((strides, index))
}

fn message(heap: Global, width: u32, plan: &[u8], bytes: &[u8]) -> Result<Message, Stop> {
    let (sheet, index) = number(bytes, 0, 8)?;
    if sheet > u128::from(LARGEST) {
        return Err(refusal(NUMBER, 0));
    }
    let (strides, place) = strides(heap, bytes, index)?;
    if strides.as_slice() != plan {
        return Err(refusal(STRIDES, index));
    }
    let (count, index) = number(bytes, place, 4)?;
    let count = (count % (1 << 32)) as u32;
    let (entries, index) = entries(heap, width, bytes, index, count)?;
    if index != bytes.len() {
        return Err(refusal(CUT, index));
    }
    Ok(Message {
        number: (sheet % (1 << 64)) as u64,
        strides,
        count,
        entries,
    })
}

/// What bytes are, for addresses of so many bits and a plan: the message, or the first fault from front to back.
pub(crate) fn read(
    heap: Global,
    width: u32,
    plan: &[u8],
    bytes: &[u8],
) -> Result<Result<Message, Refused>, AllocError> {
    match message(heap, width, plan, bytes) {
        Ok(message) => Ok(Ok(message)),
        Err(Stop::Refused(refused)) => Ok(Err(refused)),
        Err(Stop::NoMemory) => Err(AllocError),
    }
}
