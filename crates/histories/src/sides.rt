use crate::calls::{Answer, Call};
use crate::scan::Scan;
use reference::{Counted, Deleted, Failure, Inserted, Matched, RouteList};
use std::alloc::{AllocError, Global};
use trials::History;
use trials::dice::Dice;
use trials::lines::Line;
use trials::numbers::Numbered;
use trials::tally::{Tally, settled};

impl From<Inserted> for Answer {
    fn from(Inserted { old, taken }: Inserted) -> Answer {
        Answer::Inserted { old, taken }
    }
}

impl From<Deleted> for Answer {
    fn from(Deleted { hop, returned }: Deleted) -> Answer {
        Answer::Deleted { hop, returned }
    }
}

impl<A: Numbered> From<Matched<A>> for Answer {
    fn from(Matched { route, path }: Matched<A>) -> Answer {
        Answer::Matched {
            route: route.map(Line::from),
            path,
        }
    }
}

impl From<Counted> for Answer {
    fn from(
        Counted {
            routes,
            required,
            free,
        }: Counted,
    ) -> Answer {
        Answer::Counted {
            routes,
            required,
            free,
        }
    }
}

// What the sorted list says to a call.
fn answer<A: Numbered>(list: &mut RouteList<A>, call: &Call) -> Result<Answer, Failure> {
    Ok(match call {
        Call::Open(strides) => {
            list.open(strides.as_slice())?;
            Answer::Opened
        }
        Call::Insert(network, hop) => list.insert(network.prefix(), *hop)?.into(),
        Call::Delete(network) => list.delete(network.prefix())?.into(),
        Call::Lookup(value) => list.lookup(A::from_value(*value))?.into(),
        Call::Exact(network) => Answer::Hop(list.exact(network.prefix())?),
        Call::First => Answer::Route(list.first()?.map(Line::from)),
        Call::Next(network) => Answer::Route(list.next(network.prefix())?.map(Line::from)),
        Call::Counts => list.counts()?.into(),
    })
}

// A history of random calls, each put to both. It has no contract: one that pins it would be the history once more.
pub(crate) fn play<A: Numbered>(heap: Global, history: History) -> Result<Tally, AllocError> {
    let mut dice = Dice::new(history.start);
    let mut list: RouteList<A> = RouteList::new(heap, history.nodes);
    let mut scan = Scan::new(heap, A::WIDTH, history.nodes);
    let mut tally = Tally::new();
    for _ in 0..history.calls {
        let call = Call::random(heap, &mut dice, &scan)?;
        let one = settled(answer(&mut list, &call))?;
        let other = settled(scan.answer(&call))?;
        tally.count(
            one.map(Answer::number).map_err(|fault| fault.refusal),
            one == other,
        );
    }
    Ok(tally)
}
