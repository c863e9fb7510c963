//! For C: many IPv4 addresses looked up in one call, in a tree that lies in lent words.
#![tactic(auto)]

ghost use Rattle.std.specs.Prelude.{◌≡◌, true, false, length, min};
ghost use Rattle.fields.specs.Layout.{nodes_of};
ghost use Rattle.model.specs.Plans.{plan_ok};
ghost use Rattle.plan.specs.Strides.{strides_of};
ghost use Rattle.linecard.specs.Found.{found_for, Answers};

use address::ipv4::Ipv4;
use descent::{Matched, lookup};
use nodes::NodeRead;
use plan::Plan;
use words::Words;

// What stands for an address that no route matches.
const NO_ROUTE: u32 = 0;

// What stands for an address whose walk comes to a child that is no node. No hop is so large.
const REFUSED: u32 = 0xffff_ffff;

/// Looks up as many addresses as there are entries for, or as many as there are: entry i is 1 more than the hop of the longest match of
/// address i, 0 where no route matches it, and 2^32 - 1 where the tree is damaged on its way. Answers whether the strides are a plan for
/// IPv4 addresses; where they are none, no entry is written. The words are only read.
#[unsafe(no_mangle)]
pub extern "C" fn linecard_lookup(
    words: &mut [u64],
    strides: &[u8],
    addresses: &[u32],
    found: &mut [u32],
) -> bool
    ensures planned { result ≡ plan_ok 32 strides.now }
    ensures unplanned { plan_ok 32 strides.now ≡ false → found.new ≡ found.old }
    ensures answers { plan_ok 32 strides.now ≡ true → Answers (nodes_of words.old) strides.now addresses.now found.old (min (length addresses.now) (length found.old)) found.new }
    ensures words { words.new ≡ words.old }
{
    let Ok(plan) = Plan::new(strides) else {
        return false;
    };
    let mut memory = Words::new(words);
    look_up_each(&mut memory, &plan, addresses, found);
    true
}

// Looks up each address that has an entry.
fn look_up_each<M: NodeRead>(
    memory: &mut M,
    plan: &Plan<Ipv4>,
    addresses: &[u32],
    found: &mut [u32],
)
    ensures answers { Answers (M.NodeRead.nodes memory.old) (strides_of plan.now) addresses.now found.old (min (length addresses.now) (length found.old)) found.new }
    ensures still { M.NodeRead.still memory.old memory.new }
{
    for i in 0..addresses.len().min(found.len()) {
        found[i] = look_up(memory, plan, addresses[i]);
    }
}

// What is found for an address.
fn look_up<M: NodeRead>(memory: &mut M, plan: &Plan<Ipv4>, address: u32) -> u32
    ensures value { result ≡ found_for (M.NodeRead.nodes memory.old) (strides_of plan.now) address }
    ensures still { M.NodeRead.still memory.old memory.new }
{
    match lookup(memory, plan, Ipv4 { bits: address }) {
        Ok(
            Matched {
                found: Some(held),
                ..
            },
        ) => u32::from(held.hop) + 1,
        Ok(Matched { found: None, .. }) => NO_ROUTE,
        Err(_) => REFUSED,
    }
}
