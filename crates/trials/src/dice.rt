ghost use Rattle.std.specs.Prelude.{◌≡◌, ◌<◌};
ghost use Rattle.trials.specs.Dice.{next_state, rolled};

/// Pseudo-random numbers, the same in every run.
#[derive(Clone, Copy)]
pub struct Dice {
    pub state: u64,
}

impl Dice {
    /// Dice that start from a state.
    pub fn new(state: u64) -> Dice
        ensures { result.state ≡ state }
    {
        Dice { state }
    }

    /// A number below `sides`, or 0 where that is 0.
    pub fn roll(&mut self, sides: u32) -> u32
        ensures state { self.new.state ≡ next_state self.old.state }
        ensures value { result ≡ rolled sides self.new.state }
        ensures below { 0 < sides → result < sides }
    {
        self.state = self
            .state
            .wrapping_mul(6364136223846793005)
            .wrapping_add(1442695040888963407);
        ((self.state >> 33) as u32).checked_rem(sides).unwrap_or(0)
    }
}
