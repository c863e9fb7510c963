//! The sixteen refusals, each with its number and word, and the fault that carries one up through the layers.
#![tactic(auto)]

ghost use Rattle.std.specs.Prelude.{◌≡◌, Some};
ghost use Rattle.faults.specs.Numbers.{number_of, word_of, meaning_of, refusal_told, layer_word, of_table, of_memory};

use std::error::Error;
use std::fmt;

/// Why a call is refused. The numbers are 1 to 16, in this order.
#[derive(Clone, Copy, PartialEq, Eq, Debug)]
pub enum Refusal {
    /// The table is not yet open.
    Shut = 1,
    /// A rule of the plan is broken.
    Plan,
    /// The memory has no nodes.
    Size,
    /// The length is above the width.
    Length,
    /// Bits are set behind the length.
    Stray,
    /// The hop is above 4095.
    Hop,
    /// More nodes are required than there are.
    Full,
    /// The prefix is not held.
    Absent,
    /// The node or position is outside.
    Place,
    /// The value is outside its range.
    Value,
    /// The message ends early or has bytes left over.
    Cut,
    /// The number is above 2^62.
    Number,
    /// The strides are not the table's.
    Strides,
    /// The route is not above the one before.
    Order,
    /// The block's number is not due.
    Turn,
    /// The output is shorter than the sheet.
    Narrow,
}

/// Where a refusal arose.
#[derive(Clone, Copy, PartialEq, Eq, Debug)]
pub enum Layer {
    /// The node memory.
    Memory,
    /// The table.
    Table,
    /// A reader of sheets or blocks.
    Reader,
    /// The link that follows blocks.
    Link,
}

/// A refusal, the layer where it arose, and the place of the first byte of the field at fault in a message; 0 outside messages.
#[derive(Clone, Copy, PartialEq, Eq, Debug)]
pub struct Fault {
    pub refusal: Refusal,
    pub layer: Layer,
    pub place: usize,
}

impl Refusal {
    /// Its number, 1 to 16.
    pub fn number(self) -> u8
        ensures { result ≡ number_of self }
    {
        self as u8
    }

    /// Its word.
    pub fn word(self) -> &'static str
        ensures { result.now ≡ word_of self }
    {
        match self {
            Refusal::Shut => "shut",
            Refusal::Plan => "plan",
            Refusal::Size => "size",
            Refusal::Length => "length",
            Refusal::Stray => "stray",
            Refusal::Hop => "hop",
            Refusal::Full => "full",
            Refusal::Absent => "absent",
            Refusal::Place => "place",
            Refusal::Value => "value",
            Refusal::Cut => "cut",
            Refusal::Number => "number",
            Refusal::Strides => "strides",
            Refusal::Order => "order",
            Refusal::Turn => "turn",
            Refusal::Narrow => "narrow",
        }
    }

    /// What it says, in a few words.
    pub fn meaning(self) -> &'static str
        ensures { result.now ≡ meaning_of self }
    {
        match self {
            Refusal::Shut => "the table is not yet open",
            Refusal::Plan => "a rule of the plan is broken",
            Refusal::Size => "the memory has no nodes",
            Refusal::Length => "the length is above the width",
            Refusal::Stray => "bits are set behind the length",
            Refusal::Hop => "the hop is above 4095",
            Refusal::Full => "more nodes are required than there are",
            Refusal::Absent => "the prefix is not held",
            Refusal::Place => "the node or position is outside",
            Refusal::Value => "the value is outside its range",
            Refusal::Cut => "the message ends early or has bytes left over",
            Refusal::Number => "the number is above 2^62",
            Refusal::Strides => "the strides are not the table's",
            Refusal::Order => "the route is not above the one before",
            Refusal::Turn => "the block's number is not due",
            Refusal::Narrow => "the output is shorter than the sheet",
        }
    }
}

/// Its number.
impl From<Refusal> for u8 {
    ghost from_gives = { λ refusal number. number ≡ number_of refusal };

    fn from(refusal: Refusal) -> u8 {
        refusal.number()
    }
}

/// Writes its number, its word and what it says, as `refused 5 (stray): bits are set behind the length`.
impl fmt::Display for Refusal {
    ghost output = { λ refusal. Some (refusal_told refusal) };

    fn fmt<W: fmt::Write>(&self, f: &mut fmt::Formatter<W>) -> fmt::Result {
        write!(
            f,
            "refused {} ({}): {}",
            self.number(),
            self.word(),
            self.meaning()
        )
    }
}

impl Layer {
    /// Its word.
    pub fn word(self) -> &'static str
        ensures { result.now ≡ layer_word self }
    {
        match self {
            Layer::Memory => "memory",
            Layer::Table => "table",
            Layer::Reader => "reader",
            Layer::Link => "link",
        }
    }
}

/// Writes its word.
impl fmt::Display for Layer {
    ghost output = { λ layer. Some (layer_word layer) };

    fn fmt<W: fmt::Write>(&self, f: &mut fmt::Formatter<W>) -> fmt::Result {
        f.write_str(self.word())
    }
}

impl Fault {
    /// A refusal by the table itself, outside any message.
    pub fn of_table(refusal: Refusal) -> Fault
        ensures { result ≡ of_table refusal }
    {
        Fault {
            refusal,
            layer: Layer::Table,
            place: 0,
        }
    }

    /// A refusal by a node memory, which has no place in a message either.
    pub fn of_memory(refusal: Refusal) -> Fault
        ensures { result ≡ of_memory refusal }
    {
        Fault {
            refusal,
            layer: Layer::Memory,
            place: 0,
        }
    }
}

/// Writes the refusal, as it writes itself.
impl fmt::Display for Fault {
    ghost output = { λ fault. Some (refusal_told fault.refusal) };

    fn fmt<W: fmt::Write>(&self, f: &mut fmt::Formatter<W>) -> fmt::Result {
        write!(f, "{}", self.refusal)
    }
}

impl Error for Fault {}
