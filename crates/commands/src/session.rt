ghost use Rattle.std.specs.Prelude.{◌≡◌, ◌∷◌, ◌++◌, length, is_ok, if◌then◌else◌, Err, IfOk, IfErr, OnOk, codes, string_bytes};
ghost use Rattle.std.specs.Option.{option_map};
ghost use Rattle.model.specs.Calls.{Answer, route_is, open_with, answer, shut};
ghost use Rattle.model.specs.Outcomes.{Outcome};
ghost use Rattle.pair.specs.Told.{Same, Tells};
ghost use Rattle.pair.specs.declared.failed.Failed.TheVariants.{NoMemory};
ghost use Rattle.reference.specs.Shown.{count_answer, insert_answer, delete_answer, match_answer};
ghost use Rattle.routes.specs.Meant.{meant};
ghost use Rattle.commands.specs.Commands.{commanded, newly_open, opened_by};
ghost use Rattle.commands.specs.Replies.{Comes, OpenReplied, Replied, Replies, ToldSomehow, Undisputed};
ghost use Rattle.commands.specs.Stands.{Agreed, memory_of, stands};
ghost use Rattle.replies.specs.Told.{counted_told, opened_told, inserted_told, deleted_told, found_told, matched_told, prefix_spelled};
ghost use Rattle.replies.specs.Words.{CountedWords, OpenedWords, InsertedWords, DeletedWords, MatchedWords, RouteAnswerWords};
ghost use Rattle.commands.specs.declared.command.Command.TheVariants.{Insert, Delete, Lookup, Exact, First, Next, Counts};

use crate::command::{Command, HELP, Trouble, read_command};
use crate::drawing::draw;
use crate::line::Words;
use address::Address;
use address::prefix::Prefix;
use buffer::Buffer;
use nodes::MOST_NODES;
use pair::{Failed, Pair};
use reference::RouteList;
use replies::answers::{Counted, Deleted, Found, HopFound, Inserted, Matched, Opened, RouteText};
use replies::reply::{Reply, Stop};
use routes::Route;
use std::alloc::{AllocError, Global};
use std::fmt::Display;
use text::AddressText;
use text::prefix::prefix_text;

// The allocator goes beside the pair: it is a handle of no size, which calls of the library take first, and a struct of both would only hand it on.
// Each call has a function of its own, whose contract says what that call leaves and how it is told.

// A command with its prefix.
fn named<A: AddressText>(
    heap: Global,
    command: &str,
    prefix: &Prefix<A>,
) -> Result<String, AllocError>
    ensures { IfOk result (λ text. string_bytes text ≡ command.now ++ (32 ∷ prefix_spelled A.AddressText.spelled prefix.now)) }
{
    format!(in heap; "{command} {}", prefix_text(prefix, heap)?)
}

// The answer to what was asked, or its refusal, in words; what is neither goes on up.
fn reply<T: Display + Drop>(
    heap: Global,
    asked: &str,
    answer: Result<T, Failed>,
) -> Result<Reply<'static>, Stop>
    ensures told { IfOk result (Replies asked.now T.output answer) }
    ensures same { Same answer → Undisputed result }
{
    match answer {
        Ok(answer) => Ok(Reply::Answered(format!(in heap; "{asked}: {answer}")?)),
        Err(Failed::Refused(fault)) => Ok(Reply::Refused(format!(in heap; "{asked}: {fault}")?)),
        Err(Failed::NoMemory) => Err(Stop::NoMemory),
        Err(Failed::Differ) => Err(Stop::Differ),
    }
}

// What an insert answered, with the hop that was put in.
fn inserted(hop: u16, answer: Result<reference::Inserted, Failed>) -> Result<Inserted, Failed>
    ensures told { (o : Outcome Answer) → Tells insert_answer answer o → Comes (λ inserted. inserted_told inserted.hop inserted.answer.old inserted.answer.taken) (InsertedWords hop) result o }
    ensures failure { IfErr answer (λ e. result ≡ Err e) }
    ensures same { Same answer → Same result }
{
    Ok(Inserted {
        hop,
        answer: answer?,
    })
}

// What a delete answered.
fn deleted(answer: Result<reference::Deleted, Failed>) -> Result<Deleted, Failed>
    ensures told { (o : Outcome Answer) → Tells delete_answer answer o → Comes (λ deleted. deleted_told deleted.0.hop deleted.0.returned) DeletedWords result o }
    ensures same { Same answer → Same result }
{
    Ok(Deleted(answer?))
}

// A route that was found, in words.
fn found<A: AddressText>(
    heap: Global,
    answer: Result<Option<Route<A>>, Failed>,
) -> Result<Found, Failed>
    ensures told { (o : Outcome Answer) → Tells (λ r. route_is (option_map (meant A.Address.bits) r)) answer o → Comes (λ found. found_told found.0) (RouteAnswerWords A.Address.bits A.AddressText.spelled) result o }
    ensures same { Same answer → Same result }
{
    Ok(Found::new(heap, answer?)?)
}

// A route that matches, in words, and the nodes on the path.
fn matched<A: AddressText>(
    heap: Global,
    answer: Result<reference::Matched<A>, Failed>,
) -> Result<Matched, Failed>
    ensures told { (o : Outcome Answer) → Tells (match_answer A.Address.bits) answer o → Comes (λ matched. matched_told (found_told matched.found.0) matched.path) (MatchedWords A.Address.bits A.AddressText.spelled) result o }
    ensures same { Same answer → Same result }
{
    let answer = answer?;
    Ok(Matched {
        found: Found::new(heap, answer.route)?,
        path: answer.path,
    })
}

// What a count answered.
fn counted(answer: Result<reference::Counted, Failed>) -> Result<Counted, Failed>
    ensures told { (o : Outcome Answer) → Tells count_answer answer o → Comes (λ counted. counted_told counted.0.routes counted.0.required counted.0.free) CountedWords result o }
    ensures same { Same answer → Same result }
{
    Ok(Counted(answer?))
}

// Every route, the smallest first, and how many they are: counted while they are written, since the count stands in front of them.
fn all_routes<A: AddressText>(heap: Global, pair: &mut Pair<A, Buffer>) -> Result<String, Failed>
    ensures after { stands pair.new ≡ stands pair.old }
    ensures agree { Agreed A.Address.WIDTH pair.old → Agreed A.Address.WIDTH pair.new × Same result }
{
    let mut lines = String::new(heap);
    let mut count: u64 = 0;
    let mut route = pair.first()?;
    for _ in 0..u64::MAX {
        let Some(held) = route else {
            break;
        };
        let text = RouteText::new(heap, &held)?;
        write!(lines, "\n  {text}")?;
        count = count.saturating_add(1);
        route = pair.next(held.prefix)?;
    }
    Ok(format!(in heap; "routes held: {count}{lines}")?)
}

// A shut pair over no words.
pub(crate) fn shut_pair<A: Address>(heap: Global) -> Pair<A, Buffer>
    ensures { Agreed A.Address.WIDTH result }
{
    let words = Vec::new(heap);
    Pair::new(heap, Buffer { words })
}

// A shut pair over words for so many nodes, at most as many as a memory has.
fn pair_for<A: Address>(heap: Global, nodes: usize) -> Result<Pair<A, Buffer>, Failed>
    ensures stands { IfOk result (λ pair. stands pair ≡ record { nodes = memory_of nodes; plain = shut }) }
    ensures agree { IfOk result (Agreed A.Address.WIDTH) }
    ensures failure { IfErr result (λ e. e ≡ NoMemory) }
{
    let nodes = nodes.min(MOST_NODES as usize);
    let words = vec![in heap; 0; 36 * nodes]?;
    Ok(Pair::new(heap, Buffer { words }))
}

// Another pair, for so many nodes, takes the place of this one where it opens.
fn replace<A: AddressText>(
    heap: Global,
    pair: &mut Pair<A, Buffer>,
    nodes: usize,
    strides: &[u8],
) -> Result<Opened, Failed>
    ensures answer { Comes (λ opened. opened_told opened.nodes opened.strides) (OpenedWords (memory_of nodes) (length strides.now)) result (answer A.Address.WIDTH (memory_of nodes) shut (open_with strides.now)) }
    ensures after { stands pair.new ≡ (if is_ok result then newly_open A.Address.WIDTH nodes strides.now else stands pair.old) }
    ensures agree { Agreed A.Address.WIDTH pair.old → Agreed A.Address.WIDTH pair.new × Same result }
{
    // Before memory is asked for, the list alone opens: a refusal does not hang on memory.
    RouteList::<A>::new(heap, nodes.min(MOST_NODES as usize)).open(strides)?;
    let mut opened = pair_for(heap, nodes)?;
    opened.open(strides)?;
    *pair = opened;
    Ok(Opened {
        nodes: nodes.min(MOST_NODES as usize),
        strides: strides.len(),
    })
}

#[tactic(auto, using(crate::proofs::Told::tells))]
fn open<A: AddressText>(
    heap: Global,
    pair: &mut Pair<A, Buffer>,
    nodes: usize,
    strides: &[u8],
) -> Result<Reply<'static>, Stop>
    ensures after { OnOk result (stands pair.new ≡ opened_by A.Address.WIDTH nodes strides.now (stands pair.old)) }
    ensures told { IfOk result (OpenReplied A.Address.WIDTH nodes strides.now) }
    ensures agree { Agreed A.Address.WIDTH pair.old → Agreed A.Address.WIDTH pair.new × Undisputed result }
{
    reply(heap, "open", replace(heap, pair, nodes, strides))
}

fn insert<A: AddressText>(
    heap: Global,
    pair: &mut Pair<A, Buffer>,
    prefix: Prefix<A>,
    hop: u16,
) -> Result<Reply<'static>, Stop>
    ensures after { OnOk result (stands pair.new ≡ commanded A.Address.WIDTH A.Address.bits (Insert prefix hop) (stands pair.old)) }
    ensures told { IfOk result (Replied A.Address.WIDTH A.Address.bits A.AddressText.spelled (Insert prefix hop) (stands pair.old)) }
    ensures agree { Agreed A.Address.WIDTH pair.old → Agreed A.Address.WIDTH pair.new × Undisputed result }
{
    let asked = named(heap, "insert", &prefix)?;
    let answer = pair.insert(prefix, hop);
    reply(heap, asked.as_str(), inserted(hop, answer))
}

fn delete<A: AddressText>(
    heap: Global,
    pair: &mut Pair<A, Buffer>,
    prefix: Prefix<A>,
) -> Result<Reply<'static>, Stop>
    ensures after { OnOk result (stands pair.new ≡ commanded A.Address.WIDTH A.Address.bits (Delete prefix) (stands pair.old)) }
    ensures told { IfOk result (Replied A.Address.WIDTH A.Address.bits A.AddressText.spelled (Delete prefix) (stands pair.old)) }
    ensures agree { Agreed A.Address.WIDTH pair.old → Agreed A.Address.WIDTH pair.new × Undisputed result }
{
    let asked = named(heap, "delete", &prefix)?;
    let answer = pair.delete(prefix);
    reply(heap, asked.as_str(), deleted(answer))
}

fn lookup<A: AddressText>(
    heap: Global,
    pair: &mut Pair<A, Buffer>,
    address: A,
) -> Result<Reply<'static>, Stop>
    ensures after { stands pair.new ≡ stands pair.old }
    ensures told { IfOk result (Replied A.Address.WIDTH A.Address.bits A.AddressText.spelled (Lookup address) (stands pair.old)) }
    ensures agree { Agreed A.Address.WIDTH pair.old → Agreed A.Address.WIDTH pair.new × Undisputed result }
{
    let asked = format!(in heap; "lookup {}", address.text(heap)?)?;
    reply(heap, asked.as_str(), matched(heap, pair.lookup(address)))
}

#[tactic(auto, using(crate::proofs::Told::tells))]
fn exact<A: AddressText>(
    heap: Global,
    pair: &mut Pair<A, Buffer>,
    prefix: Prefix<A>,
) -> Result<Reply<'static>, Stop>
    ensures after { stands pair.new ≡ stands pair.old }
    ensures told { IfOk result (Replied A.Address.WIDTH A.Address.bits A.AddressText.spelled (Exact prefix) (stands pair.old)) }
    ensures agree { Agreed A.Address.WIDTH pair.old → Agreed A.Address.WIDTH pair.new × Undisputed result }
{
    let asked = named(heap, "exact", &prefix)?;
    reply(heap, asked.as_str(), pair.exact(prefix).map(HopFound))
}

fn first<A: AddressText>(heap: Global, pair: &mut Pair<A, Buffer>) -> Result<Reply<'static>, Stop>
    ensures after { stands pair.new ≡ stands pair.old }
    ensures told { IfOk result (Replied A.Address.WIDTH A.Address.bits A.AddressText.spelled First (stands pair.old)) }
    ensures agree { Agreed A.Address.WIDTH pair.old → Agreed A.Address.WIDTH pair.new × Undisputed result }
{
    reply(heap, "first", found(heap, pair.first()))
}

fn next<A: AddressText>(
    heap: Global,
    pair: &mut Pair<A, Buffer>,
    prefix: Prefix<A>,
) -> Result<Reply<'static>, Stop>
    ensures after { stands pair.new ≡ stands pair.old }
    ensures told { IfOk result (Replied A.Address.WIDTH A.Address.bits A.AddressText.spelled (Next prefix) (stands pair.old)) }
    ensures agree { Agreed A.Address.WIDTH pair.old → Agreed A.Address.WIDTH pair.new × Undisputed result }
{
    let asked = named(heap, "next", &prefix)?;
    reply(heap, asked.as_str(), found(heap, pair.next(prefix)))
}

fn counts<A: AddressText>(heap: Global, pair: &mut Pair<A, Buffer>) -> Result<Reply<'static>, Stop>
    ensures after { stands pair.new ≡ stands pair.old }
    ensures told { IfOk result (Replied A.Address.WIDTH A.Address.bits A.AddressText.spelled Counts (stands pair.old)) }
    ensures agree { Agreed A.Address.WIDTH pair.old → Agreed A.Address.WIDTH pair.new × Undisputed result }
{
    reply(heap, "counts", counted(pair.counts()))
}

fn list_all<A: AddressText>(
    heap: Global,
    pair: &mut Pair<A, Buffer>,
) -> Result<Reply<'static>, Stop>
    ensures after { stands pair.new ≡ stands pair.old }
    ensures told { IfOk result (ToldSomehow (codes "list")) }
    ensures agree { Agreed A.Address.WIDTH pair.old → Agreed A.Address.WIDTH pair.new × Undisputed result }
{
    reply(heap, "list", all_routes(heap, pair))
}

fn nodes<A: AddressText>(heap: Global, pair: &mut Pair<A, Buffer>) -> Result<Reply<'static>, Stop>
    ensures after { stands pair.new ≡ stands pair.old }
    ensures told { IfOk result (ToldSomehow (codes "nodes")) }
    ensures agree { Agreed A.Address.WIDTH pair.old → Agreed A.Address.WIDTH pair.new × Undisputed result }
{
    reply(heap, "nodes", draw(heap, &mut pair.table))
}

// Does what a command asks for.
fn perform<A: AddressText>(
    heap: Global,
    pair: &mut Pair<A, Buffer>,
    command: Command<A>,
) -> Result<Reply<'static>, Stop>
    ensures after { OnOk result (stands pair.new ≡ commanded A.Address.WIDTH A.Address.bits command (stands pair.old)) }
    ensures told { IfOk result (Replied A.Address.WIDTH A.Address.bits A.AddressText.spelled command (stands pair.old)) }
    ensures agree { Agreed A.Address.WIDTH pair.old → Agreed A.Address.WIDTH pair.new × Undisputed result }
{
    match command {
        Command::Kind(kind) => Ok(Reply::Switched(kind)),
        Command::Open(nodes, strides) => open(heap, pair, nodes, strides.as_slice()),
        Command::Insert(prefix, hop) => insert(heap, pair, prefix, hop),
        Command::Delete(prefix) => delete(heap, pair, prefix),
        Command::Lookup(address) => lookup(heap, pair, address),
        Command::Exact(prefix) => exact(heap, pair, prefix),
        Command::First => first(heap, pair),
        Command::Next(prefix) => next(heap, pair, prefix),
        Command::Counts => counts(heap, pair),
        Command::List => list_all(heap, pair),
        Command::Nodes => nodes(heap, pair),
        Command::Help => Ok(Reply::Answered(String::from_str(heap, HELP)?)),
    }
}

// What the line of a number comes to, on a pair of its kind.
pub(crate) fn answer<'a, A: AddressText>(
    heap: Global,
    pair: &mut Pair<A, Buffer>,
    number: u64,
    line: &'a [u8],
) -> Result<Reply<'a>, Stop>
    ensures agree { Agreed A.Address.WIDTH pair.old → Agreed A.Address.WIDTH pair.new × Undisputed result }
{
    let mut words = Words::of(line);
    let Some(first) = words.next() else {
        return Ok(Reply::Silence);
    };
    if let [b'#', ..] = first.bytes {
        return match std::str::from_utf8(line) {
            Ok(text) => Ok(Reply::Remark(text)),
            Err(_) => Ok(Reply::Silence),
        };
    }
    match read_command::<A>(heap, first, words) {
        Ok(command) => perform(heap, pair, command),
        Err(Trouble::Misread(misread)) => Ok(Reply::Misread(number, misread)),
        Err(Trouble::NoMemory) => Err(Stop::NoMemory),
    }
}
