//! For C: a table for IPv4 addresses in lent words, fed with calls by numbers.
#![tactic(auto)]

ghost use Rattle.std.specs.Prelude.{◌≡◌, ◌+◌, ◌*◌, ◌/◌, ◌%◌, ◌^◌, ◌≤◌, ℕ, List, [], IfOk, Some, true, false, length, map, min, take};
ghost use Rattle.bits.specs.Rows.{row};
ghost use Rattle.descent.specs.Meant.{held_route};
ghost use Rattle.faults.specs.Numbers.{number_of};
ghost use Rattle.fields.specs.Beside.{Beside};
ghost use Rattle.fields.specs.Layout.{nodes_of};
ghost use Rattle.model.specs.Calls.{Plain, after, answer, holding, open_with, shut};
ghost use Rattle.model.specs.Outcomes.{is_granted, outcome};
ghost use Rattle.model.specs.Placements.{Placement, opened_placement};
ghost use Rattle.nodes.specs.Fields.{most_nodes};
ghost use Rattle.table.specs.Answers.{delete_answer, insert_answer, match_answer};
ghost use Rattle.table.specs.Placed.{placed};
ghost use Rattle.table.specs.Stands.{Stands};
ghost use Rattle.walks.specs.Shows.{Shows};
ghost use Rattle.feed.specs.Fed.{Answered, call_of, list_after, placement_after, route_told, routes_of, told};

use address::ipv4::Ipv4;
use address::prefix::Prefix;
use descent::{Held, Matched};
use faults::Fault;
use nodes::{MOST_NODES, NodeWrite};
use std::mem;
use table::{Deleted, Inserted, Table};
use words::Words;

// From this bit on a call says what is asked, and an answer why it is refused.
const ASKED: u32 = 56;

// What is asked; any other number asks for a lookup.
const INSERT: u64 = 0;

const DELETE: u64 = 1;

/// Opens a table for IPv4 addresses in the words by these strides, whatever the words held, and puts as many calls to it, one after another, as
/// there are answers for, or as many as there are calls. A call is a number: its bits 0 to 31 are an address, 32 to 39 a length, 40 to 55 a hop,
/// and the others say what is asked: 0 to insert the route, 1 to delete the prefix, any other number to look up the address. Answer i is
/// that of call i: the number of a refusal from bit 56 on; else 1 more than the hop, 0 for none, with the number of nodes taken, returned or
/// visited from bit 16 on, and in a lookup the length of the matching prefix from bit 40 on. Answers whether the table was opened; where it was
/// not, words and answers are as they were.
#[unsafe(no_mangle)]
pub extern "C" fn table_feed(
    words: &mut [u64],
    strides: &[u8],
    calls: &[u64],
    answers: &mut [u64],
) -> bool
    ensures opened { result ≡ is_granted (answer 32 (nodes_of words.old).size shut (open_with strides.now)) }
    ensures words { result ≡ false → words.new ≡ words.old }
    ensures unopened { result ≡ false → answers.new ≡ answers.old }
    ensures answers { result ≡ true → Answered (nodes_of words.old).size strides.now calls.now answers.old (min (length calls.now) (length answers.old)) answers.new }
    ensures shows { result ≡ true → Shows 32 (nodes_of words.new) strides.now (routes_of (list_after (nodes_of words.old).size strides.now (take (length answers.old) calls.now))) (placement_after (nodes_of words.old).size strides.now (take (length answers.old) calls.now)) }
    ensures beside { Beside words.old words.new }
{
    let mut memory = Words::new(words);
    feed(&mut memory, Words::new(&mut []), strides, calls, answers)
}

// Opens a table over the memory, answers each call that has an entry, and puts the memory back. A table keeps its memory, so the other one stands in
// the lender's place meanwhile. Answers whether the table was opened.
fn feed<M: NodeWrite + Drop>(
    memory: &mut M,
    other: M,
    strides: &[u8],
    calls: &[u64],
    answers: &mut [u64],
) -> bool
    ensures opened { result ≡ is_granted (answer 32 (M.NodeRead.nodes memory.old).size shut (open_with strides.now)) }
    ensures memory { result ≡ false → M.NodeRead.still memory.old memory.new }
    ensures unopened { result ≡ false → answers.new ≡ answers.old }
    ensures answers { result ≡ true → Answered (M.NodeRead.nodes memory.old).size strides.now calls.now answers.old (min (length calls.now) (length answers.old)) answers.new }
    ensures shows { result ≡ true → Shows 32 (M.NodeRead.nodes memory.new) strides.now (routes_of (list_after (M.NodeRead.nodes memory.old).size strides.now (take (length answers.old) calls.now))) (placement_after (M.NodeRead.nodes memory.old).size strides.now (take (length answers.old) calls.now)) }
    ensures always { M.NodeRead.always memory.old memory.new }
{
    let mut table = Table::new(mem::replace(memory, other));
    let opened = table.open(strides).is_ok();
    if opened {
        answer_each(&mut table, calls, answers);
    }
    *memory = table.into_memory();
    opened
}

// Answers each call that has an entry.
fn answer_each<M: NodeWrite>(table: &mut Table<Ipv4, M>, calls: &[u64], answers: &mut [u64])
    ensures answers { (strides : List ℕ) → Stands M.NodeRead.nodes 32 table.old (holding strides []) (opened_placement (M.NodeRead.nodes table.old.memory).size) → Answered (M.NodeRead.nodes table.old.memory).size strides calls.now answers.old (min (length calls.now) (length answers.old)) answers.new }
    ensures after { (strides : List ℕ) → Stands M.NodeRead.nodes 32 table.old (holding strides []) (opened_placement (M.NodeRead.nodes table.old.memory).size) → Stands M.NodeRead.nodes 32 table.new (list_after (M.NodeRead.nodes table.old.memory).size strides (take (length answers.old) calls.now)) (placement_after (M.NodeRead.nodes table.old.memory).size strides (take (length answers.old) calls.now)) }
    ensures always { M.NodeRead.always table.old.memory table.new.memory }
{
    for i in 0..calls.len().min(answers.len()) {
        answers[i] = answer_one(table, calls[i]);
    }
}

// Puts a call to the table: the number of its answer.
fn answer_one<M: NodeWrite>(table: &mut Table<Ipv4, M>, call: u64) -> u64
    ensures answer { (plain : Plain) (at : Placement) → Stands M.NodeRead.nodes 32 table.old plain at → result ≡ told (answer 32 (M.NodeRead.nodes table.old.memory).size plain (call_of call)) }
    ensures after { (plain : Plain) (at : Placement) → Stands M.NodeRead.nodes 32 table.old plain at → Stands M.NodeRead.nodes 32 table.new (after 32 (M.NodeRead.nodes table.old.memory).size plain (call_of call)) (placed 32 (M.NodeRead.nodes table.old.memory).size plain at (call_of call)) }
    ensures always { M.NodeRead.always table.old.memory table.new.memory }
{
    let asked = call >> ASKED;
    if asked == INSERT {
        told_insert(table.insert(prefix_in(call), hop_in(call)))
    } else if asked == DELETE {
        told_delete(table.delete(prefix_in(call)))
    } else {
        told_lookup(table.lookup(address_in(call)))
    }
}

fn address_in(call: u64) -> Ipv4
    ensures { result.bits ≡ call % 2 ^ 32 }
{
    Ipv4 {
        bits: (call % (1 << 32)) as u32,
    }
}

fn prefix_in(call: u64) -> Prefix<Ipv4>
    ensures address { result.address.bits ≡ call % 2 ^ 32 }
    ensures length { result.length ≡ call / 2 ^ 32 % 2 ^ 8 }
{
    Prefix {
        address: address_in(call),
        length: ((call >> 32) % (1 << 8)) as u32,
    }
}

fn hop_in(call: u64) -> u16
    ensures { result ≡ call / 2 ^ 40 % 2 ^ 16 }
{
    ((call >> 40) % (1 << 16)) as u16
}

fn told_insert(answer: Result<Inserted, Fault>) -> u64
    ensures { IfOk answer (λ x. x.taken ≤ most_nodes) → result ≡ told (outcome insert_answer answer) }
{
    match answer {
        Ok(Inserted { old, taken }) => with_nodes(old.map_or(0, |hop| u64::from(hop) + 1), taken),
        Err(fault) => told_refusal(fault),
    }
}

fn told_delete(answer: Result<Deleted, Fault>) -> u64
    ensures { IfOk answer (λ x. x.returned ≤ most_nodes) → result ≡ told (outcome delete_answer answer) }
{
    match answer {
        Ok(Deleted { hop, returned }) => with_nodes(u64::from(hop) + 1, returned),
        Err(fault) => told_refusal(fault),
    }
}

fn told_lookup(answer: Result<Matched<Ipv4>, Fault>) -> u64
    ensures { IfOk answer (λ x. x.visits ≤ most_nodes) → result ≡ told (outcome (match_answer (λ a. row 32 a.bits)) answer) }
{
    match answer {
        Ok(
            Matched {
                found: Some(route),
                visits,
            },
        ) => with_nodes(told_route(route), visits),
        Ok(
            Matched {
                found: None,
                visits,
            },
        ) => with_nodes(0, visits),
        Err(fault) => told_refusal(fault),
    }
}

fn told_route(route: Held<Ipv4>) -> u64
    ensures value { result ≡ route_told (Some (held_route (λ a. row 32 a.bits) route)) }
    ensures small { result ≤ 2 ^ 50 }
{
    let Held { prefix, hop } = route;
    u64::from(hop) + 1 + (u64::from(prefix.prefix.length) << 40)
}

fn told_refusal(fault: Fault) -> u64
    ensures { result ≡ number_of fault.refusal * 2 ^ 56 }
{
    u64::from(fault.refusal.number()) << ASKED
}

// What is told below bit 16 and from bit 40 on, with a number of nodes from bit 16 on. No memory has more than the most.
fn with_nodes(told: u64, nodes: usize) -> u64
    requires { told ≤ 2 ^ 50 }
    ensures { nodes ≤ most_nodes → result ≡ told + nodes * 2 ^ 16 }
{
    told + (nodes.min(MOST_NODES as usize) as u64) * (1 << 16)
}
