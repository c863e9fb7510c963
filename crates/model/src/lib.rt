//! What a route table is: the definitions in `specs/` that the contracts of the other crates cite, and the worked examples of them.
#![tactic(auto)]

ghost use Rattle.model.specs.Figures.{Figures};

/// The worked examples hold of the definitions.
pub fn figures_hold()
    ensures { Figures }
{
    // Nothing is run.
}
