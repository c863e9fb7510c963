//! Random sheets of one plan, whole and damaged.
use crate::compare::{agree, check_written, counted};
use crate::damage::{DAMAGES, any_damage, harmed};
use crate::making::any_message;
use crate::message::Message;
use crate::tally::Tally;
use anyhow::{Context, ensure};
use plan::Plan;
use routes::Route;
use std::alloc::Global;
use trials::dice::Dice;
use trials::numbers::Numbered;

/// How many sheets there are, how many routes are drawn for each, and how often it has each damage.
#[derive(Clone, Copy)]
pub(crate) struct Trial {
    pub sheets: u32,
    pub least: u32,
    pub most: u32,
    pub rounds: u32,
}

// The routes of a sound message.
fn routes_of<A: Numbered>(heap: Global, message: &Message) -> anyhow::Result<Vec<Route<A>>> {
    let mut routes = Vec::new(heap);
    for entry in message.entries.iter() {
        routes.push(entry.route()?)?;
    }
    Ok(routes)
}

// A whole sheet is written as its bytes, which read as it, and requires what the list counts.
fn whole<A: Numbered>(
    heap: Global,
    plan: &Plan<A>,
    message: &Message,
    bytes: &[u8],
) -> anyhow::Result<()> {
    let routes = routes_of(heap, message)?;
    check_written(heap, message.number, plan, routes.as_slice(), bytes)?;
    ensure!(agree(heap, plan, bytes)?.is_none(), "a sheet is refused");
    ensure!(
        counted(heap, plan, routes.as_slice())? == message.required(heap)?,
        "the list counts other nodes"
    );
    Ok(())
}

// Its first bytes, of every number less than all.
fn cut<A: Numbered>(
    heap: Global,
    plan: &Plan<A>,
    bytes: &[u8],
    tally: &mut Tally,
) -> anyhow::Result<()> {
    for size in 0..bytes.len() {
        let said = agree(heap, plan, &bytes[..size]).context(format_args!("{size} bytes of it"))?;
        tally.cut.count(said);
    }
    Ok(())
}

// Each damage once, and two at once as often, since the first fault from front to back is the one that counts.
fn damaged<A: Numbered>(
    heap: Global,
    plan: &Plan<A>,
    dice: &mut Dice,
    message: &Message,
    tally: &mut Tally,
) -> anyhow::Result<()> {
    for (damage, row) in DAMAGES.iter().zip(tally.damaged.iter_mut()) {
        let name = damage.name();
        let bytes = harmed(heap, dice, A::WIDTH, message, &[*damage])?;
        let said = agree(heap, plan, bytes.as_slice()).context(name)?;
        row.count(said);
        let other = any_damage(dice);
        let bytes = harmed(heap, dice, A::WIDTH, message, &[*damage, other])?;
        let said = agree(heap, plan, bytes.as_slice())
            .context(other.name())
            .context(name)?;
        tally.twice.count(said);
    }
    Ok(())
}

// One random sheet.
fn play_one<A: Numbered>(
    heap: Global,
    plan: &Plan<A>,
    dice: &mut Dice,
    trial: &Trial,
    tally: &mut Tally,
) -> anyhow::Result<()> {
    let more = trial.most.saturating_sub(trial.least).saturating_add(1);
    let drawn = trial.least.saturating_add(dice.roll(more));
    let message = any_message(heap, dice, A::WIDTH, plan.strides(), drawn)?;
    let bytes = message.bytes(heap)?;
    tally.add(message.count);
    whole(heap, plan, &message, bytes.as_slice())?;
    cut(heap, plan, bytes.as_slice(), tally)?;
    for _ in 0..trial.rounds {
        damaged(heap, plan, dice, &message, tally)?;
    }
    Ok(())
}

/// All sheets of a trial; what differs is told with the sheet's number.
pub(crate) fn play<A: Numbered>(
    heap: Global,
    plan: &Plan<A>,
    dice: &mut Dice,
    trial: &Trial,
    tally: &mut Tally,
) -> anyhow::Result<()> {
    let most = trial.most;
    for sheet in 0..trial.sheets {
        play_one(heap, plan, dice, trial, tally).context(format_args!(
            "sheet {sheet} of at most {most} routes"
        ))?;
    }
    Ok(())
}
