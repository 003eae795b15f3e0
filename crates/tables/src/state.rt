// The state of a locality.
ghost use Rattle.std.specs.Prelude.{◌≡◌};
ghost use Rattle.tables.specs.States.{state_number};

#[derive(Clone, Copy, Debug, PartialEq, Eq)]
pub enum State {
    Regime = 1,
    StartUp = 2,
}

/// The states are numbered from 1 to this.
pub const STATES: u64 = 2;

impl State {
    pub fn number(self) -> u64
        ensures { result ≡ state_number self }
    {
        self as u64
    }
}
