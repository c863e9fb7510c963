ghost use Rattle.std.specs.Prelude.{◌≡◌, Some};
ghost use Rattle.replies.specs.Counted.{counted, summary_told};

use crate::reply::Reply;
use std::fmt;

/// How many lines there were, and what they came to.
#[derive(Clone, Copy, PartialEq, Eq, Debug)]
pub struct Summary {
    pub lines: u64,
    pub answered: u64,
    pub refused: u64,
    pub misread: u64,
}

impl Summary {
    /// No lines yet.
    pub fn new() -> Summary
        ensures { result ≡ record { lines = 0; answered = 0; refused = 0; misread = 0 } }
    {
        Summary {
            lines: 0,
            answered: 0,
            refused: 0,
            misread: 0,
        }
    }

    /// Counts one line more.
    pub fn count(&mut self, reply: &Reply<'_>)
        ensures { self.new ≡ counted self.old reply.now }
    {
        self.lines = self.lines.saturating_add(1);
        match reply {
            Reply::Silence | Reply::Remark(_) => {}
            Reply::Answered(_) | Reply::Switched(_) => self.answered = self
                .answered
                .saturating_add(1),
            Reply::Refused(_) => self.refused = self.refused.saturating_add(1),
            Reply::Misread(_, _) => self.misread = self.misread.saturating_add(1),
        }
    }
}

/// Writes the counts in words.
impl fmt::Display for Summary {
    ghost output = { λ summary. Some (summary_told summary) };

    fn fmt<W: fmt::Write>(&self, f: &mut fmt::Formatter<W>) -> fmt::Result {
        write!(
            f,
            "lines read: {}; commands answered: {}, refused: {}, not understood: {}",
            self.lines, self.answered, self.refused, self.misread
        )
    }
}
