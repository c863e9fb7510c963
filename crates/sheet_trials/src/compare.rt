//! What the sheets' own calls make of bytes and routes, beside what the test makes of them.
use crate::message::{Entry, Message};
use crate::reader::{Refused, read};
use anyhow::{bail, ensure};
use faults::{Fault, Layer, Refusal};
use plan::Plan;
use reference::RouteList;
use routes::Route;
use sheets::write::write;
use sheets::{Routes, Sheet};
use std::alloc::Global;
use trials::numbers::Numbered;
use trials::tally::settled;

// more than any sheet here requires
const NODES: usize = 100_000;

// what outputs hold before
const UNWRITTEN: u8 = 0xaa;

// The next route is the entry.
fn take_route<A: Numbered>(routes: &mut Routes<'_, A>, entry: Entry) -> anyhow::Result<Route<A>> {
    let route = routes.next()?;
    ensure!(Entry::from(route) == entry, "another route");
    Ok(route)
}

// The next route is refused: there the bytes end.
fn check_end<A: Numbered>(routes: &mut Routes<'_, A>, size: usize) -> anyhow::Result<()> {
    match routes.next() {
        Ok(_) => bail!("a route more"),
        Err(fault) => refused_alike(
            fault,
            Refused {
                number: 11,
                place: size,
            },
        ),
    }
}

// The routes are those of the message, and behind the last the bytes end.
fn take_routes<A: Numbered>(
    heap: Global,
    routes: &mut Routes<'_, A>,
    message: &Message,
    size: usize,
) -> anyhow::Result<Vec<Route<A>>> {
    let mut taken = Vec::new(heap);
    for entry in message.entries.iter() {
        taken.push(take_route(routes, *entry)?)?;
    }
    // Twice, since a refusal leaves the routes where they are.
    check_end(routes, size)?;
    check_end(routes, size)?;
    Ok(taken)
}

// A fault is the refusal that the other reader has, by a reader.
fn refused_alike(fault: Fault, refused: Refused) -> anyhow::Result<()> {
    let number = fault.refusal.number();
    let place = fault.place;
    let layer = fault.layer;
    ensure!(
        number == refused.number && place == refused.place && layer == Layer::Reader,
        "refused {number} at {place} by the {layer}, not as {refused:?}"
    );
    Ok(())
}

// Routes are written as these bytes into an output that is so much longer; what is behind them stays.
fn check_output<A: Numbered>(
    heap: Global,
    number: u64,
    plan: &Plan<A>,
    routes: &[Route<A>],
    bytes: &[u8],
    longer: usize,
) -> anyhow::Result<()> {
    let mut output = vec![in heap; UNWRITTEN; bytes.len().saturating_add(longer)]?;
    let size = write(number, plan, routes, output.as_mut_slice())?;
    ensure!(
        size == bytes.len() && output.get(..size) == Some(bytes),
        "other bytes are written"
    );
    ensure!(
        output.iter().skip(size).all(|byte| *byte == UNWRITTEN),
        "bytes behind the sheet are written"
    );
    Ok(())
}

/// That routes are written as these bytes, into an output that they fill and into a longer one; that one byte less is refused and stays.
pub(crate) fn check_written<A: Numbered>(
    heap: Global,
    number: u64,
    plan: &Plan<A>,
    routes: &[Route<A>],
    bytes: &[u8],
) -> anyhow::Result<()> {
    check_output(heap, number, plan, routes, bytes, 0)?;
    check_output(heap, number, plan, routes, bytes, 2)?;
    let mut output = vec![in heap; UNWRITTEN; bytes.len().saturating_sub(1)]?;
    let said = write(number, plan, routes, output.as_mut_slice());
    ensure!(
        said == Err(Fault::of_table(Refusal::Narrow)),
        "an output is not refused as narrow"
    );
    ensure!(
        output.iter().all(|byte| *byte == UNWRITTEN),
        "a narrow output is written"
    );
    Ok(())
}

// A sheet that was read is the message, requires as many nodes, and is written again as the same bytes.
fn check_read<A: Numbered>(
    heap: Global,
    plan: &Plan<A>,
    sheet: &mut Sheet<'_, A>,
    message: &Message,
    bytes: &[u8],
) -> anyhow::Result<()> {
    ensure!(
        sheet.number == message.number && sheet.count == message.count,
        "another number or count"
    );
    ensure!(
        sheet.required == message.required(heap)?,
        "another number of nodes"
    );
    let taken = take_routes(heap, &mut sheet.routes, message, bytes.len())?;
    check_written(heap, sheet.number, plan, taken.as_slice(), bytes)
}

/// That both readers make the same of bytes: a sheet, as none, or a refusal, by its number.
pub(crate) fn agree<A: Numbered>(
    heap: Global,
    plan: &Plan<A>,
    bytes: &[u8],
) -> anyhow::Result<Option<u8>> {
    let own = read(heap, A::WIDTH, plan.strides(), bytes)?;
    match (Sheet::read(bytes, plan), own) {
        (Ok(mut sheet), Ok(message)) => {
            check_read(heap, plan, &mut sheet, &message, bytes)?;
            Ok(None)
        }
        (Err(fault), Err(refused)) => {
            refused_alike(fault, refused)?;
            Ok(Some(refused.number))
        }
        (Ok(_), Err(refused)) => bail!("read, and not {refused:?}"),
        (Err(fault), Ok(_)) => bail!("{fault}, and not read"),
    }
}

/// How many nodes the list of routes counts when it takes these, one by one.
pub(crate) fn counted<A: Numbered>(
    heap: Global,
    plan: &Plan<A>,
    routes: &[Route<A>],
) -> anyhow::Result<usize> {
    let mut list = RouteList::new(heap, NODES);
    list.open(plan.strides())?;
    for route in routes {
        settled(list.insert(route.prefix, route.hop))??;
    }
    Ok(list.counts()?.required)
}
