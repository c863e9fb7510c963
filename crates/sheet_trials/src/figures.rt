//! A sheet drawn by hand, byte for byte: the default route by hop 1 and 192.0.2.0/24 by hop 7, under number 5.
use crate::compare::{agree, check_written};
use address::ipv4::Ipv4;
use address::prefix::Prefix;
use anyhow::ensure;
use faults::{Fault, Layer, Refusal};
use plan::Plan;
use routes::Route;
use sheets::write::write;
use sheets::{LAST_NUMBER, Sheet};
use std::alloc::Global;

const DRAWN: [u8; 28] = [
    0, 0, 0, 0, 0, 0, 0, 5, // the number
    6, 3, 6, 6, 6, 6, 6, // the strides
    0, 0, 0, 2, // how many routes
    0, 0, 1, // 0.0.0.0/0 by hop 1
    24, 192, 0, 2, 0, 7, // 192.0.2.0/24 by hop 7
];

fn route(number: u32, length: u32, hop: u16) -> Result<Route<Ipv4>, Fault> {
    let address = Ipv4::from(number);
    Route::new(Prefix { address, length }, hop)
}

// It is written and read as drawn; five nodes are the root and one at each of the bits 3, 9, 15 and 21.
fn as_drawn(heap: Global, plan: &Plan<Ipv4>, routes: &[Route<Ipv4>]) -> anyhow::Result<()> {
    check_written(heap, 5, plan, routes, &DRAWN)?;
    let mut sheet = Sheet::read(&DRAWN, plan)?;
    ensure!(
        sheet.number == 5 && sheet.count == 2 && sheet.required == 5,
        "another number, count or number of nodes"
    );
    for route in routes {
        let next = sheet.routes.next()?;
        ensure!(
            next.prefix == route.prefix && next.hop == route.hop,
            "another route"
        );
    }
    ensure!(agree(heap, plan, &DRAWN)?.is_none(), "refused");
    Ok(())
}

// Outputs that are too short are refused, and stay.
fn narrow(plan: &Plan<Ipv4>, routes: &[Route<Ipv4>]) -> anyhow::Result<()> {
    for size in 0..DRAWN.len() {
        let mut output = [0xaa; 28];
        let said = write(5, plan, routes, &mut output[..size]);
        ensure!(
            said == Err(Fault::of_table(Refusal::Narrow)),
            "{size} bytes are not refused as narrow"
        );
        ensure!(output == [0xaa; 28], "{size} bytes are written");
    }
    Ok(())
}

// The largest number, 2^62, passes; the one above is refused.
fn numbers(heap: Global, plan: &Plan<Ipv4>, routes: &[Route<Ipv4>]) -> anyhow::Result<()> {
    let mut output = [0xaa; 28];
    let size = write(LAST_NUMBER, plan, routes, &mut output)?;
    ensure!(size == DRAWN.len(), "another size");
    ensure!(output[..8] == [0x40, 0, 0, 0, 0, 0, 0, 0], "another number");
    let sheet = Sheet::read(&output, plan)?;
    ensure!(sheet.number == 1 << 62, "another number is read");
    output[7] = 1;
    let wanted = Fault {
        refusal: Refusal::Number,
        layer: Layer::Reader,
        place: 0,
    };
    ensure!(
        Sheet::read(&output, plan).err() == Some(wanted),
        "a number above the largest is read"
    );
    ensure!(agree(heap, plan, &output)? == Some(12), "not refused 12");
    let before = output;
    let said = write((1 << 62) + 1, plan, routes, &mut output);
    ensure!(
        said == Err(Fault::of_table(Refusal::Number)) && output == before,
        "a number above the largest is written"
    );
    Ok(())
}

/// That the sheet is written and read as drawn, and refused where it should be.
pub(crate) fn check(heap: Global) -> anyhow::Result<()> {
    let plan = Plan::new(&[3, 6, 6, 6, 6, 6])?;
    let routes = [route(0, 0, 1)?, route(0xc000_0200, 24, 7)?];
    as_drawn(heap, &plan, &routes)?;
    narrow(&plan, &routes)?;
    numbers(heap, &plan, &routes)
}
