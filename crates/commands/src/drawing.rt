// The tree of a table in words: each node in use with its path, its marked positions and its children, and the chain of the free nodes.
ghost use Rattle.pair.specs.Told.{Same};
ghost use Rattle.table.specs.Stands.{Still};

use address::Address;
use address::prefix::Prefix;
use faults::{Fault, Refusal};
use masks::is_marked;
use nodes::{LAST_POSITION, MOST_CHILDREN, NodeRead, NodeWrite};
use pair::Failed;
use std::alloc::Global;
use table::Table;
use text::AddressText;
use text::prefix::prefix_text;

// A node that is to be drawn: its depth, of which child index it is the child, and the bits that lead to it.
#[derive(Clone, Copy)]
struct Branch<A: Address> {
    node: u32,
    depth: usize,
    index: Option<u8>,
    path: Prefix<A>,
}

// The prefix of a mark: the bits that lead to the node, and those that its position stands for.
fn mark_prefix<A: Address>(path: &Prefix<A>, position: u8) -> Prefix<A> {
    let more = position.checked_ilog2().unwrap_or(0);
    longer(path, more, position)
}

// The path with so many bits more, the low ones of a value.
fn longer<A: Address>(path: &Prefix<A>, more: u32, value: u8) -> Prefix<A> {
    Prefix {
        address: path.address.with_group(path.length, more, value),
        length: path.length.saturating_add(more),
    }
}

// A new line, further in for each level.
fn new_line(text: &mut String, depth: usize) -> Result<(), Failed>
    ensures { Same result }
{
    write!(text, "\n  ")?;
    for _ in 0..depth {
        write!(text, "  ")?;
    }
    Ok(())
}

// The line of a mark.
fn draw_mark<A: AddressText>(
    heap: Global,
    branch: &Branch<A>,
    position: u8,
    hop: u16,
    text: &mut String,
) -> Result<(), Failed>
    ensures { Same result }
{
    new_line(text, branch.depth.saturating_add(1))?;
    let prefix = prefix_text(&mark_prefix(&branch.path, position), heap)?;
    write!(text, "position {position}: {prefix} by hop {hop}")?;
    Ok(())
}

// The line of a node, and those of its marks.
fn draw_branch<A: AddressText, M: NodeRead>(
    heap: Global,
    memory: &mut M,
    branch: &Branch<A>,
    text: &mut String,
) -> Result<(), Failed>
    ensures same { Same result }
    ensures still { M.NodeRead.still memory.old memory.new }
{
    new_line(text, branch.depth)?;
    if let Some(index) = branch.index {
        write!(text, "child {index}: ")?;
    }
    let path = prefix_text(&branch.path, heap)?;
    write!(text, "node {} at {path}", branch.node)?;
    let bitmap = memory.bitmap(branch.node)?;
    for position in 1..=LAST_POSITION {
        let hop = memory.hop(branch.node, position)?;
        if is_marked(bitmap, position) {
            draw_mark(heap, branch, position, hop, text)?;
        }
    }
    Ok(())
}

// Puts the children of a node on the pile of those that are to be drawn, the first on top.
fn pile_children<A: Address, M: NodeRead>(
    memory: &mut M,
    branch: &Branch<A>,
    stride: u8,
    pile: &mut Vec<Branch<A>>,
) -> Result<(), Failed>
    ensures same { Same result }
    ensures still { M.NodeRead.still memory.old memory.new }
{
    for index in (0..MOST_CHILDREN).rev() {
        let node = memory.child(branch.node, index)?;
        if node != 0 {
            pile.push(Branch {
                node,
                depth: branch.depth.saturating_add(1),
                index: Some(index),
                path: longer(&branch.path, u32::from(stride), index),
            })?;
        }
    }
    Ok(())
}

// The lines of a node, whose children are then to be drawn.
fn draw_and_pile<A: AddressText, M: NodeRead>(
    heap: Global,
    memory: &mut M,
    branch: &Branch<A>,
    stride: u8,
    pile: &mut Vec<Branch<A>>,
    text: &mut String,
) -> Result<(), Failed>
    ensures same { Same result }
    ensures still { M.NodeRead.still memory.old memory.new }
{
    draw_branch(heap, memory, branch, text)?;
    pile_children(memory, branch, stride, pile)
}

// The lines of all nodes that the root leads to, each below its parent. So many nodes are drawn at most as there are.
fn draw_tree<A: AddressText, M: NodeRead>(
    heap: Global,
    memory: &mut M,
    strides: &[u8],
    text: &mut String,
) -> Result<(), Failed>
    ensures same { Same result }
    ensures still { M.NodeRead.still memory.old memory.new }
{
    let mut pile: Vec<Branch<A>> = Vec::new(heap);
    pile.push(Branch {
        node: 0,
        depth: 0,
        index: None,
        path: Prefix {
            address: A::zero(),
            length: 0,
        },
    })?;
    for _ in 0..memory.size() {
        let Some(branch) = pile.pop() else {
            break;
        };
        let stride = strides.get(branch.depth).copied().unwrap_or(0);
        draw_and_pile(heap, memory, &branch, stride, &mut pile, text)?;
    }
    Ok(())
}

// Free nodes that follow each other by number.
fn draw_run(text: &mut String, first: u32, last: u32) -> Result<(), Failed>
    ensures { Same result }
{
    if first == last {
        write!(text, " {first}")?;
    } else {
        write!(text, " {first} to {last}")?;
    }
    Ok(())
}

// The line of the chain, from its front on.
fn draw_chain<M: NodeRead>(memory: &mut M, front: u32, text: &mut String) -> Result<(), Failed>
    ensures same { Same result }
    ensures still { M.NodeRead.still memory.old memory.new }
{
    write!(text, "\n  chain:")?;
    if front == 0 {
        write!(text, " empty")?;
        return Ok(());
    }
    let mut first = front;
    let mut last = front;
    for _ in 0..memory.size() {
        let link = memory.child(last, 0)?;
        if link == 0 {
            break;
        }
        if last.checked_add(1) != Some(link) {
            draw_run(text, first, last)?;
            write!(text, ",")?;
            first = link;
        }
        last = link;
    }
    draw_run(text, first, last)
}

// The plan's strides, which outlive the readings of the table.
fn strides_of<A: Address, M: NodeWrite>(
    heap: Global,
    table: &Table<A, M>,
) -> Result<Vec<u8>, Failed>
    ensures { Same result }
{
    match table.plan() {
        Some(plan) => Ok(Vec::from_slice(heap, plan.strides())?),
        None => Err(Failed::Refused(Fault::of_table(Refusal::Shut))),
    }
}

// The tree and the chain of a table.
pub(crate) fn draw<A: AddressText, M: NodeWrite>(
    heap: Global,
    table: &mut Table<A, M>,
) -> Result<String, Failed>
    ensures same { Same result }
    ensures still { Still M.NodeRead.still table.old table.new }
{
    let strides = strides_of(heap, table)?;
    let front = table.front()?;
    let counted = table.counts()?;
    let mut text = String::new(heap);
    write!(text, "{} in use, {} free", counted.required, counted.free)?;
    draw_tree::<A, Table<A, M>>(heap, table, strides.as_slice(), &mut text)?;
    draw_chain(table, front, &mut text)?;
    Ok(text)
}
