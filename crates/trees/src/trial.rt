//! Trees under one plan in memories of one size.
use crate::calls::Call;
use crate::damage::{damage, set_all};
use crate::pair::{Pair, any_records, any_words};
use crate::tally::Tally;
use crate::tree::Tree;
use anyhow::Context;
use records::{Record, Records};
use std::alloc::Global;
use std::fmt;
use trials::dice::Dice;
use trials::numbers::Numbered;
use words::Words;

// How large a memory is, and what is made in it: so many trees, the first with no route and the last with the most.
#[derive(Clone, Copy)]
pub(crate) struct Size {
    pub nodes: u32,
    pub routes: u32,
    pub trees: u32,
}

// Each tree has a seed, counted from the first's.
#[derive(Clone, Copy)]
pub(crate) struct Trial {
    pub strides: &'static [u8],
    pub size: Size,
    pub seed: u64,
}

// Random calls to a tree, and to each damaged one.
const CALLS: u32 = 60;

// Damaged trees made of one.
const DAMAGED: u32 = 3;

impl fmt::Display for Trial {
    fn fmt<W: fmt::Write>(&self, f: &mut fmt::Formatter<W>) -> fmt::Result {
        write!(f, "plan ")?;
        for stride in self.strides {
            write!(f, "{stride}")?;
        }
        let nodes = self.size.nodes;
        write!(f, ", {nodes} nodes")
    }
}

// Writes a tree's fields into two memories that held something else, and asks both and the list.
fn compare<A: Numbered>(
    tree: &Tree<A>,
    dice: &mut Dice,
    fields: &[Record],
    before: Vec<Record>,
    words: &mut [u64],
    tally: &mut Tally,
) -> anyhow::Result<()> {
    let mut pair = Pair::written(before, words, fields)?;
    tree.ask_all(&mut pair, tally)?;
    for _ in 0..CALLS {
        let call = Call::random(dice, A::WIDTH, tree.lines.lines.as_slice());
        tree.ask(&mut pair, tally, call)?;
    }
    Ok(())
}

// Damages the fields of a tree, keeps all nodes or only the first ones, and asks both memories.
fn break_down<A: Numbered>(
    tree: &Tree<A>,
    dice: &mut Dice,
    fields: &[Record],
    words: &mut [u64],
    tally: &mut Tally,
) -> anyhow::Result<()> {
    let lines = tree.lines.lines.as_slice();
    let layout = &tree.layout;
    let mut broken = Vec::from_slice(tree.heap, fields)?;
    let used = u32::try_from(layout.nodes.len()).unwrap_or(u32::MAX);
    for _ in 0..=dice.roll(used) {
        damage(dice, layout, lines, broken.as_mut_slice());
    }
    set_all(words, broken.as_slice());
    let kept = if dice.roll(3) == 0 {
        dice.roll(layout.size.saturating_add(1))
    } else {
        layout.size
    };
    broken.truncate(kept as usize);
    let lent = words
        .get_mut(..36 * kept as usize)
        .context("too few words")?;
    let mut pair = Pair {
        records: Records::new(broken),
        words: Words::new(lent),
    };
    tally.count(&pair.ask(tree.heap, &tree.plan, layout, Call::First)?);
    for _ in 0..CALLS {
        let call = Call::random(dice, A::WIDTH, lines);
        tally.count(&pair.ask(tree.heap, &tree.plan, layout, call)?);
    }
    Ok(())
}

// One tree, with at most so many routes.
fn play_one<A: Numbered>(
    heap: Global,
    trial: &Trial,
    seed: u64,
    routes: u32,
    tally: &mut Tally,
) -> anyhow::Result<()> {
    let mut dice = Dice::new(seed);
    let tree: Tree<A> = Tree::random(heap, &mut dice, trial, routes)?;
    let fields = tree.layout.fields(heap, tree.lines.lines.as_slice())?;
    // dice of their own, so that what was there before has no part in what is drawn
    let mut other = Dice::new(!seed);
    let before = any_records(heap, &mut other, trial.size.nodes)?;
    let mut words = any_words(heap, &mut other, trial.size.nodes)?;
    let fields = fields.as_slice();
    compare(
        &tree,
        &mut dice,
        fields,
        before,
        words.as_mut_slice(),
        tally,
    )?;
    for _ in 0..DAMAGED {
        break_down(&tree, &mut dice, fields, words.as_mut_slice(), tally)?;
    }
    tally.trees = tally.trees.wrapping_add(1);
    Ok(())
}

// All trees of a trial; what differs, or fails, is told with the seed of its tree.
pub(crate) fn play<A: Numbered>(heap: Global, trial: &Trial) -> anyhow::Result<Tally> {
    let Size { routes, trees, .. } = trial.size;
    let mut tally = Tally::new();
    for i in 0..trees {
        let seed = trial.seed.wrapping_add(u64::from(i));
        let routes = routes.wrapping_mul(i) / trees.saturating_sub(1).max(1);
        play_one::<A>(heap, trial, seed, routes, &mut tally).context(format_args!(
            "{trial}, seed {seed}"
        ))?;
    }
    Ok(tally)
}
