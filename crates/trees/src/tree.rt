//! A tree by its routes and its layout, and what the list of the routes answers beside two memories of the tree.
use crate::calls::{Answer, Call};
use crate::layout::Layout;
use crate::pair::Pair;
use crate::random::network;
use crate::tally::Tally;
use crate::trial::Trial;
use anyhow::ensure;
use faults::Refusal;
use plan::Plan;
use reference::RouteList;
use std::alloc::Global;
use trials::dice::Dice;
use trials::lines::{Line, Lines, Network};
use trials::numbers::Numbered;
use trials::tally::settled;

#[derive(Drop)]
pub(crate) struct Tree<A: Numbered> {
    pub heap: Global,
    pub plan: Plan<A>,
    pub list: RouteList<A>,
    pub lines: Lines,
    pub layout: Layout,
}

// The number of the last address.
fn last_value(width: u32) -> u128 {
    u128::MAX
        .checked_shr(128u32.wrapping_sub(width))
        .unwrap_or(0)
}

impl<A: Numbered> Tree<A> {
    // Puts in a random route, if the nodes suffice.
    fn grow(&mut self, dice: &mut Dice) -> anyhow::Result<()> {
        let network = network(dice, A::WIDTH, self.lines.lines.as_slice());
        let hop = dice.roll(4096) as u16;
        match settled(self.list.insert(network.prefix(), hop))? {
            Ok(_) => {
                self.lines.take(network);
                self.lines.lines.push(Line { network, hop })?;
            }
            Err(fault) if fault.refusal == Refusal::Full => {}
            Err(fault) => return Err(fault.into()),
        }
        Ok(())
    }

    // A tree with at most so many routes, in order, laid out.
    pub(crate) fn random(
        heap: Global,
        dice: &mut Dice,
        trial: &Trial,
        routes: u32,
    ) -> anyhow::Result<Tree<A>> {
        let mut list = RouteList::new(heap, trial.size.nodes as usize);
        list.open(trial.strides)?;
        let mut tree = Tree {
            heap,
            plan: Plan::new(trial.strides)?,
            list,
            lines: Lines::new(heap, A::WIDTH),
            layout: Layout::new(heap, A::WIDTH, trial.strides, trial.size.nodes)?,
        };
        for _ in 0..routes {
            tree.grow(dice)?;
        }
        tree.lines.lines.sort()?;
        for line in tree.lines.lines.iter() {
            tree.layout.require(dice, line.network)?;
        }
        Ok(tree)
    }

    // What the list answers; the way to a prefix is told by the layout, with the list's hop.
    fn expected(&self, call: Call) -> anyhow::Result<Answer> {
        Ok(match call {
            Call::Lookup(value) => {
                let matched = self.list.lookup(A::from_value(value))?;
                Answer::Matched {
                    route: matched.route.map(Line::from),
                    visits: matched.path,
                }
            }
            Call::Exact(network) => Answer::Hop(self.list.exact(network.prefix())?),
            Call::First => Answer::Route(self.list.first()?.map(Line::from)),
            Call::Next(network) => {
                Answer::Route(self.list.next(network.prefix())?.map(Line::from))
            }
            Call::Trail(network) => {
                let hop = self.list.exact(network.prefix())?;
                Answer::Way(self.layout.way(network, hop)?)
            }
        })
    }

    // Puts a call to both memories and to the list, and answers the route that they find, or none.
    pub(crate) fn ask(
        &self,
        pair: &mut Pair,
        tally: &mut Tally,
        call: Call,
    ) -> anyhow::Result<Option<Line>> {
        let said = pair.ask(self.heap, &self.plan, &self.layout, call)?;
        let expected = Ok(self.expected(call)?);
        ensure!(said == expected, "{call}: the list has another answer");
        tally.count(&said);
        Ok(said.ok().and_then(|answer| answer.route()))
    }

    // Goes from the first route to the next and so on, through all routes in order.
    fn traverse(&self, pair: &mut Pair, tally: &mut Tally) -> anyhow::Result<()> {
        let mut call = Call::First;
        for line in self.lines.lines.iter() {
            let found = self.ask(pair, tally, call)?;
            ensure!(found == Some(*line), "{call}: not the next of the routes");
            call = Call::Next(line.network);
        }
        let found = self.ask(pair, tally, call)?;
        ensure!(found.is_none(), "{call}: a route behind the last");
        Ok(())
    }

    // Asks for the routes, all in order and one by one, and for the next of the least and of the greatest prefix.
    pub(crate) fn ask_all(&self, pair: &mut Pair, tally: &mut Tally) -> anyhow::Result<()> {
        let required = self.list.counts()?.required;
        ensure!(
            required == self.layout.nodes.len(),
            "another number of nodes"
        );
        self.traverse(pair, tally)?;
        for line in self.lines.lines.iter() {
            self.ask(pair, tally, Call::Exact(line.network))?;
            self.ask(pair, tally, Call::Trail(line.network))?;
        }
        let width = A::WIDTH;
        let least = Network::cut(width, 0, 0);
        let greatest = Network::cut(width, last_value(width), width);
        self.ask(pair, tally, Call::Next(least))?;
        self.ask(pair, tally, Call::Next(greatest))?;
        Ok(())
    }
}
