//! What a history's calls are put to: two tables, the plain list, and the placement by which their nodes are known.
use crate::calls::{Answer, Call, of_list, of_table};
use crate::compare::compare;
use crate::image::image;
use crate::lent::Lent;
use crate::listed::routes_of;
use crate::placement::{Placement, follow};
use anyhow::{Context, ensure};
use faults::{Fault, Refusal};
use nodes::NodeRead;
use records::Records;
use reference::RouteList;
use std::alloc::Global;
use table::Table;
use trials::numbers::Numbered;
use trials::tally::settled;
use words::Words;

// A table over records, one over words, the list, and, while they are open, the placement.
#[derive(Drop)]
pub(crate) struct Sides<'a, A: Numbered> {
    one: Table<A, Lent<'a, Records>>,
    other: Table<A, Words<'a>>,
    list: RouteList<A>,
    placement: Option<Placement>,
}

impl<'a, A: Numbered> Sides<'a, A> {
    // New ones, which are shut, over memories of so many nodes.
    pub(crate) fn new(
        heap: Global,
        nodes: usize,
        records: &'a mut Records,
        lent: &'a mut [u64],
    ) -> Sides<'a, A> {
        Sides {
            one: Table::new(Lent { memory: records }),
            other: Table::new(Words::new(lent)),
            list: RouteList::new(heap, nodes),
            placement: None,
        }
    }

    pub(crate) fn list(&self) -> &RouteList<A> {
        &self.list
    }

    // What the list answers to a call, as both tables do; their chains then have the front that the rules give.
    pub(crate) fn put(
        &mut self,
        heap: Global,
        call: &Call,
    ) -> anyhow::Result<Result<Answer, Fault>> {
        let expected = settled(of_list(&mut self.list, call))?;
        let said = of_table(&mut self.one, call);
        ensure!(
            said == expected,
            "over records another answer than the list's"
        );
        let said = of_table(&mut self.other, call);
        ensure!(
            said == expected,
            "over words another answer than the list's"
        );
        if said.is_ok() {
            let size = self.one.size();
            follow(heap, &mut self.placement, call, size, &self.list)?;
        }
        let front = match &self.placement {
            Some(placement) => Ok(placement.front()),
            None => Err(Fault::of_table(Refusal::Shut)),
        };
        ensure!(self.one.front() == front, "over records another front");
        ensure!(self.other.front() == front, "over words another front");
        Ok(said)
    }

    // All fields of both memories are those of the image; how many fields that were in each, or none while the tables are shut.
    pub(crate) fn compare(&mut self, heap: Global) -> anyhow::Result<Option<u64>> {
        let Some(placement) = &self.placement else {
            return Ok(None);
        };
        let counted = self.list.counts()?;
        ensure!(
            placement.used.len() == counted.required && placement.free.len() == counted.free,
            "the list counts other nodes than are placed"
        );
        let size = self.one.size();
        let lines = routes_of(heap, &self.list)?;
        let image = image(heap, size as usize, placement, lines.as_slice())?;
        let fields = compare(&mut self.one, image.as_slice()).context("over records")?;
        compare(&mut self.other, image.as_slice()).context("over words")?;
        Ok(Some(fields))
    }
}
