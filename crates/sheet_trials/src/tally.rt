//! What came of sheets and of their damages.
use crate::damage::{DAMAGES, KINDS};
use std::fmt;

/// How many of the messages with one damage were read all the same, and written again, and how many were refused, by the refusal's number.
#[derive(Clone, Copy)]
pub(crate) struct Row {
    read: u32,
    refused: [u32; 17],
}

/// How many sheets there were, how many routes in all and in the largest, what came of them cut at every place, with each damage, and with two.
#[derive(Clone, Copy)]
pub(crate) struct Tally {
    sheets: u32,
    routes: u32,
    largest: u32,
    pub cut: Row,
    pub damaged: [Row; KINDS],
    pub twice: Row,
}

impl Row {
    fn new() -> Row {
        Row {
            read: 0,
            refused: [0; 17],
        }
    }

    /// Counts one: none where it was read, or the refusal's number.
    pub(crate) fn count(&mut self, said: Option<u8>) {
        match said {
            None => self.read = self.read.wrapping_add(1),
            Some(number) => {
                if let Some(count) = self.refused.get_mut(usize::from(number)) {
                    *count = count.wrapping_add(1);
                }
            }
        }
    }
}

impl Tally {
    pub(crate) fn new() -> Tally {
        Tally {
            sheets: 0,
            routes: 0,
            largest: 0,
            cut: Row::new(),
            damaged: [Row::new(); KINDS],
            twice: Row::new(),
        }
    }

    /// One more sheet, of so many routes.
    pub(crate) fn add(&mut self, routes: u32) {
        self.sheets = self.sheets.wrapping_add(1);
        self.routes = self.routes.wrapping_add(routes);
        self.largest = self.largest.max(routes);
    }
}

impl fmt::Display for Row {
    fn fmt<W: fmt::Write>(&self, f: &mut fmt::Formatter<W>) -> fmt::Result {
        let read = self.read;
        write!(f, "{read} read")?;
        for (number, count) in self.refused.iter().enumerate() {
            if *count > 0 {
                write!(f, ", {count} refused {number}")?;
            }
        }
        Ok(())
    }
}

impl fmt::Display for Tally {
    fn fmt<W: fmt::Write>(&self, f: &mut fmt::Formatter<W>) -> fmt::Result {
        let sheets = self.sheets;
        let routes = self.routes;
        let largest = self.largest;
        let cut = self.cut;
        let twice = self.twice;
        write!(
            f,
            "{sheets} sheets of {routes} routes, {largest} at most, read and written again"
        )?;
        write!(f, "\n  cut at every place: {cut}")?;
        for (damage, row) in DAMAGES.iter().zip(self.damaged.iter()) {
            let name = damage.name();
            write!(f, "\n  {name}: {row}")?;
        }
        write!(f, "\n  two of these at once: {twice}")
    }
}
