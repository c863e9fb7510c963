//! A lookup in the plainest way: the address as a list of bits, and one position for each length.
use crate::calls::Answer;
use crate::layout::Layout;
use nodes::NodeRead;
use reference::Failure;
use std::alloc::{AllocError, Global};
use trials::lines::{Line, Network};

// The bits of a number, the highest first.
fn row(heap: Global, width: u32, value: u128) -> Result<Vec<bool>, AllocError> {
    let mut bits = Vec::new(heap);
    for behind in (0..width).rev() {
        bits.push(value.checked_shr(behind).unwrap_or(0) % 2 == 1)?;
    }
    Ok(bits)
}

// The number of some bits from a place on, behind those of another number.
fn number(before: u8, bits: &[bool], place: u32, count: u32) -> u8 {
    let mut number = before;
    for bit in bits.iter().skip(place as usize).take(count as usize) {
        number = number.wrapping_mul(2).wrapping_add(u8::from(*bit));
    }
    number
}

pub(crate) fn plain_lookup<M: NodeRead>(
    heap: Global,
    memory: &mut M,
    layout: &Layout,
    value: u128,
) -> Result<Answer, Failure> {
    let row = row(heap, layout.width, value)?;
    let bits = row.as_slice();
    let mut node = 0;
    let mut visits: usize = 0;
    let mut route = None;
    for level in layout.levels.iter() {
        let bitmap = memory.bitmap(node)?;
        visits = visits.wrapping_add(1);
        for more in 0..level.stride {
            let position = number(1, bits, level.offset, more);
            if bitmap.checked_shr(u32::from(position)).unwrap_or(0) % 2 == 1 {
                let length = level.offset.wrapping_add(more);
                let network = Network::cut(layout.width, value, length);
                let hop = memory.hop(node, position)?;
                route = Some(Line { network, hop });
            }
        }
        // behind the last level nothing is left
        if level.end() > layout.width {
            break;
        }
        node = memory.child(node, number(0, bits, level.offset, level.stride))?;
        if node == 0 {
            break;
        }
    }
    Ok(Answer::Matched { route, visits })
}
