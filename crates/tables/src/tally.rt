//! What came of the calls of a trial.
use crate::calls::{Answer, Call, NAMES};
use faults::Fault;
use std::fmt;
use trials::tally::sum_with;

// For each call, by its number, how many were granted and how many were refused by each refusal, by its number.
#[derive(Clone, Copy)]
struct Row {
    granted: u32,
    refused: [u32; 17],
}

// How often each came, how many nodes were required at most, how many whole memories were compared with the image and how many fields that
// were, and a sum over all answers.
#[derive(Clone, Copy)]
pub(crate) struct Tally {
    rows: [Row; 8],
    pub most: usize,
    memories: u32,
    fields: u64,
    sum: u64,
}

impl Tally {
    pub(crate) fn new() -> Tally {
        let row = Row {
            granted: 0,
            refused: [0; 17],
        };
        Tally {
            rows: [row; 8],
            most: 0,
            memories: 0,
            fields: 0,
            sum: 0,
        }
    }

    // Counts two memories that were compared with the image, each of so many fields; none where the tables were shut.
    pub(crate) fn compared(&mut self, fields: Option<u64>) {
        if let Some(fields) = fields {
            self.memories = self.memories.wrapping_add(2);
            self.fields = self.fields.wrapping_add(fields.wrapping_mul(2));
        }
    }

    pub(crate) fn count(&mut self, call: &Call, said: &Result<Answer, Fault>) {
        if let Some(row) = self.rows.get_mut(call.number()) {
            match said {
                Ok(_) => row.granted = row.granted.wrapping_add(1),
                Err(fault) => {
                    let number = usize::from(fault.refusal.number());
                    if let Some(count) = row.refused.get_mut(number) {
                        *count = count.wrapping_add(1);
                    }
                }
            }
        }
        let number = match said {
            Ok(answer) => answer.number(),
            Err(fault) => u64::from(fault.refusal.number()),
        };
        self.sum = sum_with(self.sum, number);
    }
}

impl fmt::Display for Tally {
    fn fmt<W: fmt::Write>(&self, f: &mut fmt::Formatter<W>) -> fmt::Result {
        let most = self.most;
        let memories = self.memories;
        let fields = self.fields;
        let sum = self.sum;
        write!(
            f,
            "at most {most} nodes required, {memories} whole memories compared with the image, {fields} fields, sum {sum}"
        )?;
        for (name, row) in NAMES.iter().zip(self.rows.iter()) {
            let granted = row.granted;
            write!(f, "\n  {name}: {granted} granted")?;
            for (number, count) in row.refused.iter().enumerate() {
                if *count > 0 {
                    write!(f, ", {count} refused {number}")?;
                }
            }
        }
        Ok(())
    }
}
