ghost use Rattle.std.specs.Prelude.{◌≡◌, Some};
ghost use Rattle.replies.specs.Told.{misread_told, reply_told, stop_told};
ghost use Rattle.replies.specs.declared.reply.Stop.TheVariants.{NoMemory};

use crate::kind::Kind;
use std::alloc::AllocError;
use std::error::Error;
use std::fmt;

/// Why a line was not read: what was expected, and the place of the byte at which that was missed.
#[derive(Clone, Copy, PartialEq, Eq, Debug)]
pub struct Misread {
    pub expected: &'static str,
    pub place: usize,
}

impl fmt::Display for Misread {
    ghost output = { λ misread. Some (misread_told misread) };

    fn fmt<W: fmt::Write>(&self, f: &mut fmt::Formatter<W>) -> fmt::Result {
        write!(f, "expected {} (at byte {})", self.expected, self.place)
    }
}

/// What a line came to.
#[derive(Drop)]
pub enum Reply<'a> {
    /// Nothing was asked.
    Silence,
    /// A remark, to be repeated.
    Remark(&'a str),
    /// The answer in words.
    Answered(String),
    /// The refusal in words.
    Refused(String),
    /// The line of this number was not understood.
    Misread(u64, Misread),
    /// Another kind of address from here on.
    Switched(Kind),
}

/// Writes what is printed of it; that is nothing where nothing was asked.
impl fmt::Display for Reply<'_> {
    ghost output = { λ reply. Some (reply_told reply) };

    fn fmt<W: fmt::Write>(&self, f: &mut fmt::Formatter<W>) -> fmt::Result {
        match self {
            Reply::Silence => Ok(()),
            Reply::Remark(text) => f.write_str(text),
            Reply::Answered(text) => f.write_str(text.as_str()),
            Reply::Refused(text) => f.write_str(text.as_str()),
            Reply::Misread(line, misread) => write!(f, "line {line}: {misread}"),
            Reply::Switched(kind) => write!(f, "kind {kind}: shut"),
        }
    }
}

/// Why a line has no reply: there was no memory, or the table and the plain list did not come to the same, which is an error of an engine.
#[derive(Clone, Copy, PartialEq, Eq, Debug)]
pub enum Stop {
    NoMemory,
    Differ,
}

impl fmt::Display for Stop {
    ghost output = { λ stop. Some (stop_told stop) };

    fn fmt<W: fmt::Write>(&self, f: &mut fmt::Formatter<W>) -> fmt::Result {
        match self {
            Stop::NoMemory => f.write_str("no memory"),
            Stop::Differ => f.write_str("an error of the engine: table and list differ"),
        }
    }
}

impl Error for Stop {}

impl From<AllocError> for Stop {
    ghost from_gives = { λ _ r. r ≡ NoMemory };

    fn from(_e: AllocError) -> Stop {
        Stop::NoMemory
    }
}
