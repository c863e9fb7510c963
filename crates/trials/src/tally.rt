ghost use Rattle.std.specs.Prelude.{◌≡◌, if◌then◌else◌, replicate};
ghost use Rattle.trials.specs.Tally.{summed, number_said, counted, one_more, hop_number, route_number, settled};

use crate::lines::Line;
use faults::{Fault, Refusal};
use routes::failure::Failure;
use std::alloc::AllocError;
use std::fmt;

/// What came of a history: how many calls there were, how many answers differed, how often each refusal came, by its number, and a sum over
/// the answers.
#[derive(Clone, Copy)]
pub struct Tally {
    pub calls: u32,
    pub differences: u32,
    pub refused: [u32; 17],
    pub sum: u64,
}

/// A sum with one more number.
pub fn sum_with(sum: u64, number: u64) -> u64
    ensures { result ≡ summed sum number }
{
    sum.wrapping_mul(31).wrapping_add(number)
}

/// The number of a hop in a sum, or of none.
pub fn hop_number(hop: Option<u16>) -> u64
    ensures { result ≡ hop_number hop }
{
    hop.map_or(200, |hop| 1000 + u64::from(hop))
}

/// The number of a route in a sum, or of none.
pub fn route_number(route: Option<Line>) -> u64
    ensures { result ≡ route_number route }
{
    let Some(Line { network, hop }) = route else {
        return 300;
    };
    let folded = (network.value % (1 << 64)) as u64 ^ (network.value >> 64) as u64;
    folded
        .wrapping_add(7 * u64::from(network.length))
        .wrapping_add(13 * u64::from(hop))
}

/// An answer or its fault; want of memory, which ends a history, is passed on.
pub fn settled<T>(said: Result<T, Failure>) -> Result<Result<T, Fault>, AllocError>
    ensures { result ≡ settled said }
{
    match said {
        Ok(answer) => Ok(Ok(answer)),
        Err(Failure::Refused(fault)) => Ok(Err(fault)),
        Err(Failure::NoMemory) => Err(AllocError),
    }
}

impl Tally {
    /// Of no calls.
    pub fn new() -> Tally
        ensures calls { result.calls ≡ 0 }
        ensures differences { result.differences ≡ 0 }
        ensures refused { result.refused ≡ replicate 17 0 }
        ensures sum { result.sum ≡ 0 }
    {
        Tally {
            calls: 0,
            differences: 0,
            refused: [0; 17],
            sum: 0,
        }
    }

    // `same` is no state beside `said`: answers that differ may have one number.
    /// Counts one call: the number of its answer or its refusal, and whether both sides answered the same.
    pub fn count(&mut self, said: Result<u64, Refusal>, same: bool)
        ensures calls { self.new.calls ≡ one_more self.old.calls }
        ensures differences { self.new.differences ≡ (if same then self.old.differences else one_more self.old.differences) }
        ensures refused { self.new.refused ≡ counted said self.old.refused }
        ensures sum { self.new.sum ≡ summed self.old.sum (number_said said) }
    {
        self.calls = self.calls.saturating_add(1);
        if !same {
            self.differences = self.differences.saturating_add(1);
        }
        let number = match said {
            Ok(number) => number,
            Err(refusal) => {
                let i = usize::from(refusal.number());
                self.refused[i] = self.refused[i].saturating_add(1);
                u64::from(refusal.number())
            }
        };
        self.sum = sum_with(self.sum, number);
    }
}

impl fmt::Display for Tally {
    fn fmt<W: fmt::Write>(&self, f: &mut fmt::Formatter<W>) -> fmt::Result {
        let calls = self.calls;
        let differences = self.differences;
        let sum = self.sum;
        write!(
            f,
            "{calls} calls, {differences} differences, sum of the answers {sum}"
        )?;
        for (number, count) in self.refused.iter().enumerate().take(9).skip(1) {
            write!(f, "\n  refused {number}: {count}")?;
        }
        Ok(())
    }
}
