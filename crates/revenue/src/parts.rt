// The parts of recognised revenue.
ghost use Rattle.std.specs.Prelude.{◌≡◌, pos};
ghost use Rattle.revenue.specs.Recognised.{total};

use units::amounts::Cents;

/// What makes up the recognised revenue of a company, in cents.
#[derive(Clone, Copy, Debug, PartialEq, Eq)]
pub struct Revenue {
    /// What its localities add.
    pub localities: u64,
    /// Operating price by the points served in regime.
    pub operating: u64,
    /// avv by the points served in start-up.
    pub startup: u64,
    /// ins and rac by all points served.
    pub readings: u64,
    /// The commercial price by all points served.
    pub commercial: u64,
    pub verification: u64,
    pub central: u64,
}

impl Revenue {
    /// Its parts together.
    pub fn total(&self) -> Cents
        ensures { result.0 ≡ pos (total self.now) }
    {
        let served = self.operating as u128
            + self.startup as u128
            + (self.readings as u128 + self.commercial as u128);
        let costs = self.verification as u128 + self.central as u128;
        Cents((self.localities as u128 + served + costs) as i128)
    }
}
