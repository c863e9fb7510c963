//! What came of the calls of a trial.
use crate::calls::Answer;
use faults::Fault;
use std::fmt;
use trials::tally::sum_with;

// How many trees there were, how many answers had a route or a hop, had none, or were refused, and a sum over all.
#[derive(Clone, Copy)]
pub(crate) struct Tally {
    pub trees: u32,
    with_route: u32,
    without: u32,
    refused: u32,
    sum: u64,
}

impl Tally {
    pub(crate) fn new() -> Tally {
        Tally {
            trees: 0,
            with_route: 0,
            without: 0,
            refused: 0,
            sum: 0,
        }
    }

    pub(crate) fn count(&mut self, said: &Result<Answer, Fault>) {
        let number = match said {
            Ok(answer) => {
                if answer.has_route() {
                    self.with_route = self.with_route.wrapping_add(1);
                } else {
                    self.without = self.without.wrapping_add(1);
                }
                answer.number()
            }
            Err(fault) => {
                self.refused = self.refused.wrapping_add(1);
                u64::from(fault.refusal.number())
            }
        };
        self.sum = sum_with(self.sum, number);
    }
}

impl fmt::Display for Tally {
    fn fmt<W: fmt::Write>(&self, f: &mut fmt::Formatter<W>) -> fmt::Result {
        let trees = self.trees;
        let with_route = self.with_route;
        let without = self.without;
        let refused = self.refused;
        let sum = self.sum;
        write!(
            f,
            "{trees} trees, {with_route} answers with a route, {without} without, {refused} refused, sum {sum}"
        )
    }
}
