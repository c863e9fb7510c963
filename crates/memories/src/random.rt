//! Random readings and writes on both memories.
use crate::calls::Call;
use records::{Record, Records};
use trials::dice::Dice;
use trials::tally::{Tally, sum_with};
use words::Words;

// so many nodes, and a few words behind them
const SIZE: u32 = 5;

const WORDS: usize = 187;

const CALLS: u32 = 20_000;

// Both memories begin with all bits of all fields set; the spare bits and the words behind the nodes, which stay set, are seen in the last sum.
pub(crate) fn show(rt: &HostRuntime) -> anyhow::Result<()> {
    let heap = rt.alloc();
    let full = Record {
        bitmap: 0xffff_ffff_ffff_ffff,
        count: 127,
        children: [262_143; 64],
        hops: [4095; 63],
    };
    let mut records = Records::filled(heap, SIZE as usize, full)?;
    let mut lent = [0xffff_ffff_ffff_ffff; WORDS];
    let mut words = Words::new(&mut lent);
    let mut dice = Dice::new(7);
    let mut tally = Tally::new();
    for _ in 0..CALLS {
        let call = Call::random(&mut dice, SIZE);
        let said = call.answer(&mut words);
        let other = call.answer(&mut records);
        tally.count(said.map_err(|fault| fault.refusal), said == other);
    }
    let calls = tally.calls;
    let differences = tally.differences;
    let sum = tally.sum;
    println!(rt; "{calls} calls on both, {differences} differences, sum of the answers {sum}")?;
    for number in 9..=10 {
        println!(rt; "  refused {number}: {}", tally.refused[number])?;
    }
    let sum = lent.iter().fold(0, |sum, word| sum_with(sum, *word));
    println!(rt; "sum of the words {sum}")?;
    Ok(())
}
