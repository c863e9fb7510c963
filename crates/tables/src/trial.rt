//! Histories of calls, each put to two tables and to the plain list.
use crate::calls::Answer;
use crate::random::{any_call, any_records, any_words};
use crate::sides::Sides;
use crate::tally::Tally;
use anyhow::{Context, ensure};
use records::Records;
use std::alloc::Global;
use trials::History;
use trials::dice::Dice;
use trials::numbers::Numbered;

// Two histories in each of so many memories of either kind; each history has a seed, counted from the first's. Whole memories are compared with
// the image after the first call, after each further so many, and after the last.
#[derive(Clone, Copy)]
pub(crate) struct Trial {
    pub first: History,
    pub memories: u32,
    pub every: u32,
}

// One history over these memories.
fn play_one<A: Numbered>(
    heap: Global,
    history: &History,
    every: u32,
    records: &mut Records,
    lent: &mut [u64],
    tally: &mut Tally,
) -> anyhow::Result<()> {
    let mut dice = Dice::new(history.start);
    let mut sides: Sides<A> = Sides::new(heap, history.nodes, records, lent);
    for number in 0..history.calls {
        let call = any_call(heap, &mut dice, sides.list())?;
        let said = sides
            .put(heap, &call)
            .context(format_args!("call {number}, {call}"))?;
        tally.count(&call, &said);
        if let Ok(Answer::Counted { required, .. }) = said {
            tally.most = tally.most.max(required);
        }
        let last = number.saturating_add(1) == history.calls;
        if last || number.checked_rem(every) == Some(0) {
            let fields = sides
                .compare(heap)
                .context(format_args!("call {number}, {call}"))?;
            tally.compared(fields);
        }
    }
    Ok(())
}

// Two histories in memories that hold random fields before the first, and before the second what that leaves.
fn play_two<A: Numbered>(
    heap: Global,
    first: &History,
    every: u32,
    tally: &mut Tally,
) -> anyhow::Result<()> {
    // dice of their own, so that what was there before has no part in what is drawn
    let mut other = Dice::new(!first.start);
    let mut records = Records::new(any_records(heap, &mut other, first.nodes)?);
    let mut lent = any_words(heap, &mut other, first.nodes)?;
    let before = lent.clone()?;
    for i in 0..2 {
        let mut history = *first;
        history.start = history.start.wrapping_add(i);
        let start = history.start;
        play_one::<A>(
            heap,
            &history,
            every,
            &mut records,
            lent.as_mut_slice(),
            tally,
        )
        .context(format_args!("seed {start}"))?;
    }
    let used = first.nodes.saturating_mul(36);
    ensure!(
        lent.get(used..) == before.get(used..),
        "a word behind the nodes is written"
    );
    Ok(())
}

// All histories of a trial; what differs, or fails, is told with the seed of its history.
pub(crate) fn play<A: Numbered>(heap: Global, trial: &Trial) -> anyhow::Result<Tally> {
    let mut tally = Tally::new();
    for i in 0..trial.memories {
        let mut first = trial.first;
        first.start = first.start.wrapping_add(u64::from(i).wrapping_mul(2));
        play_two::<A>(heap, &first, trial.every, &mut tally)?;
    }
    Ok(tally)
}
