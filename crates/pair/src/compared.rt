ghost use Rattle.std.specs.Prelude.{◌≡◌, ◌≢◌, true, Err, IfOk, IsErr, MatchResult};
ghost use Rattle.model.specs.Calls.{Answer, Plain};
ghost use Rattle.model.specs.Outcomes.{Outcome, outcome};
ghost use Rattle.routes.specs.Answered.{Says, leaves};
ghost use Rattle.routes.specs.declared.failure.Failure.TheVariants.{NoMemory as NoRoom};
ghost use Rattle.pair.specs.Told.{OnRefusal, Same, Tells};
ghost use Rattle.pair.specs.declared.failed.Failed.TheVariants.{NoMemory};

use crate::Failed;
use faults::Fault;
use routes::failure::Failure;

// An answer of the list, which can be held against that of a table.
pub(crate) trait Alike<U> {
    // what either answer stands for
    ghost told: { Self → Answer };

    ghost beside: { U → Answer };

    // Whether they stand for the same.
    fn alike(&self, other: &U) -> bool
        ensures same { told self.now ≡ beside other.now → result ≡ true }
        ensures differ { result ≡ true → told self.now ≡ beside other.now };
}

// What the list came to, unless it found no memory.
pub(crate) fn settled<T: Drop>(said: Result<T, Failure>) -> Result<Result<T, Fault>, Failed>
    ensures told { MatchResult result (λ r. (told : T → Answer) (o : Outcome Answer) → Says told said o → outcome told r ≡ o) (λ e. (e ≡ NoMemory) × (said ≡ Err NoRoom)) }
    ensures left { IfOk result (λ _. (was then : Plain) → leaves said was then ≡ then) }
{
    match said {
        Ok(answer) => Ok(Ok(answer)),
        Err(Failure::Refused(fault)) => Ok(Err(fault)),
        Err(Failure::NoMemory) => Err(Failed::NoMemory),
    }
}

// What the list came to, where the table came to the same.
pub(crate) fn compared<U: Drop, T: Alike<U> + Drop>(
    said: Result<T, Fault>,
    beside: Result<U, Fault>,
) -> Result<T, Failed>
    ensures list { Tells T.Alike.told result (outcome T.Alike.told said) }
    ensures table { Tells T.Alike.told result (outcome T.Alike.beside beside) }
    ensures asked { result ≢ Err NoMemory }
    ensures refused { OnRefusal result (IsErr beside) }
    ensures same { outcome T.Alike.told said ≡ outcome T.Alike.beside beside → Same result }
{
    match (said, beside) {
        (Ok(answer), Ok(other)) => {
            if answer.alike(&other) {
                Ok(answer)
            } else {
                Err(Failed::Differ)
            }
        }
        (Err(fault), Err(other)) => {
            if fault == other {
                Err(Failed::Refused(fault))
            } else {
                Err(Failed::Differ)
            }
        }
        _ => Err(Failed::Differ),
    }
}
