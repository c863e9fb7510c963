ghost use Rattle.std.specs.Prelude.{◌≡◌, ◌≤◌, IfOk};
ghost use Rattle.commands.specs.declared.command.Trouble.TheVariants.{Misread, NoMemory};

use crate::line::{Word, Words};
use address::Address;
use address::prefix::Prefix;
use replies::kind::Kind;
use replies::reply::Misread;
use std::alloc::{AllocError, Global};
use std::str::FromStr;
use text::AddressText;
use text::prefix::read_prefix;

// What a line asks for.
#[derive(Drop)]
pub(crate) enum Command<A: Address> {
    Kind(Kind),
    Open(usize, Vec<u8>),
    Insert(Prefix<A>, u16),
    Delete(Prefix<A>),
    Lookup(A),
    Exact(Prefix<A>),
    First,
    Next(Prefix<A>),
    Counts,
    List,
    Nodes,
    Help,
}

// All commands, as `help` tells them.
pub(crate) const HELP: &str =
    "commands: kind ipv4|ipv6; open NODES STRIDE,STRIDE,..; insert PREFIX HOP; delete PREFIX; lookup ADDRESS; exact PREFIX; first; next PREFIX; counts; list; nodes; help; # REMARK";

// The first words of commands, as they are expected of a line.
const COMMANDS: &str =
    "kind, open, insert, delete, lookup, exact, first, next, counts, list, nodes or help";

const KIND: &str = "kind ipv4|ipv6";

const OPEN: &str = "open NODES STRIDE,STRIDE,..";

const INSERT: &str = "insert PREFIX HOP";

const DELETE: &str = "delete PREFIX";

const LOOKUP: &str = "lookup ADDRESS";

const EXACT: &str = "exact PREFIX";

const NEXT: &str = "next PREFIX";

// the most nodes that a memory has
const MOST_NODES: usize = 262_144;

// Why a line was not read: it is not as was expected, or there was no memory.
#[derive(Clone, Copy)]
pub(crate) enum Trouble {
    Misread(Misread),
    NoMemory,
}

impl From<Misread> for Trouble {
    ghost from_gives = { λ misread trouble. trouble ≡ Misread misread };

    fn from(misread: Misread) -> Trouble {
        Trouble::Misread(misread)
    }
}

impl From<AllocError> for Trouble {
    ghost from_gives = { λ _ trouble. trouble ≡ NoMemory };

    fn from(_e: AllocError) -> Trouble {
        Trouble::NoMemory
    }
}

// The words of a command behind its first, and how the command is written.
#[derive(Drop)]
struct Arguments<'a> {
    words: Words<'a>,
    usage: &'static str,
}

impl<'a> Arguments<'a> {
    // The command is not written so, as shows at a byte.
    fn misread(&self, place: usize) -> Misread {
        Misread {
            expected: self.usage,
            place,
        }
    }

    // The next word, which the command wants.
    fn word(&mut self) -> Result<Word<'a>, Misread> {
        let end = self.words.line.len();
        self.words.next().ok_or(self.misread(end))
    }

    // No word more: the command ends here.
    fn end(&mut self) -> Result<(), Misread> {
        match self.words.next() {
            Some(word) => Err(self.misread(word.place)),
            None => Ok(()),
        }
    }

    // What a word stands for.
    fn parse<T: FromStr + Drop>(&self, word: Word<'_>) -> Result<T, Misread>
    where
        T::Err: Drop,
    {
        let Ok(text) = std::str::from_utf8(word.bytes) else {
            return Err(self.misread(word.place));
        };
        text.parse().map_err(|_| self.misread(word.place))
    }

    // The number of nodes that a word stands for, at most as many as a memory has.
    fn nodes(&self, word: Word<'_>) -> Result<usize, Misread>
        ensures { IfOk result (λ nodes. nodes ≤ 262144) }
    {
        let nodes = self.parse(word)?;
        if nodes > MOST_NODES {
            return Err(self.misread(word.place));
        }
        Ok(nodes)
    }

    // The prefix that the next word stands for.
    fn prefix<A: AddressText>(&mut self) -> Result<Prefix<A>, Misread> {
        let word = self.word()?;
        read_prefix(word.bytes).map_err(|stop| self.misread(word.place.saturating_add(stop.place)))
    }

    // The strides in a word, with a comma between each two.
    fn strides(&self, heap: Global, word: Word<'_>) -> Result<Vec<u8>, Trouble> {
        let trouble = Trouble::Misread(self.misread(word.place));
        let text = std::str::from_utf8(word.bytes).map_err(|_| trouble)?;
        text.split(',')
            .map(|part| part.parse::<u8>().map_err(|_| trouble))
            .try_collect(heap)
    }
}

fn read_kind<A: Address>(mut rest: Arguments<'_>) -> Result<Command<A>, Misread> {
    let word = rest.word()?;
    rest.end()?;
    Ok(Command::Kind(rest.parse(word)?))
}

fn read_open<A: Address>(heap: Global, mut rest: Arguments<'_>) -> Result<Command<A>, Trouble> {
    let word = rest.word()?;
    let nodes = rest.nodes(word)?;
    let word = rest.word()?;
    rest.end()?;
    Ok(Command::Open(nodes, rest.strides(heap, word)?))
}

fn read_insert<A: AddressText>(mut rest: Arguments<'_>) -> Result<Command<A>, Misread> {
    let prefix = rest.prefix()?;
    let word = rest.word()?;
    let hop = rest.parse(word)?;
    rest.end()?;
    Ok(Command::Insert(prefix, hop))
}

fn read_lookup<A: AddressText>(mut rest: Arguments<'_>) -> Result<Command<A>, Misread> {
    let word = rest.word()?;
    rest.end()?;
    let address = A::read(word.bytes).map_err(|stop| rest.misread(
        word.place.saturating_add(stop.place),
    ))?;
    Ok(Command::Lookup(address))
}

// The prefix of a command that takes nothing else.
fn read_prefixed<A: AddressText>(mut rest: Arguments<'_>) -> Result<Prefix<A>, Misread> {
    let prefix = rest.prefix()?;
    rest.end()?;
    Ok(prefix)
}

// A command that is a word alone.
fn alone<A: Address>(mut rest: Arguments<'_>, command: Command<A>) -> Result<Command<A>, Misread> {
    rest.end()?;
    Ok(command)
}

// The command of a line, by its first word and those behind it.
pub(crate) fn read_command<A: AddressText>(
    heap: Global,
    first: Word<'_>,
    words: Words<'_>,
) -> Result<Command<A>, Trouble> {
    let rest = |usage| Arguments { words, usage };
    let command = match first.bytes {
        b"kind" => read_kind(rest(KIND))?,
        b"open" => read_open(heap, rest(OPEN))?,
        b"insert" => read_insert(rest(INSERT))?,
        b"delete" => Command::Delete(read_prefixed(rest(DELETE))?),
        b"lookup" => read_lookup(rest(LOOKUP))?,
        b"exact" => Command::Exact(read_prefixed(rest(EXACT))?),
        b"first" => alone(rest("first"), Command::First)?,
        b"next" => Command::Next(read_prefixed(rest(NEXT))?),
        b"counts" => alone(rest("counts"), Command::Counts)?,
        b"list" => alone(rest("list"), Command::List)?,
        b"nodes" => alone(rest("nodes"), Command::Nodes)?,
        b"help" => alone(rest("help"), Command::Help)?,
        _ => return Err(Trouble::Misread(Misread {
            expected: COMMANDS,
            place: first.place,
        })),
    };
    Ok(command)
}
