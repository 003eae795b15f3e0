// The instalments of a company's yearly advance.
ghost use Rattle.std.specs.Prelude.{◌≡◌, pos, neg_ℤ, ◌≤ℤ◌};
ghost use Rattle.company.specs.Instalments.{paid_up_to, instalment, AddUp};

use crate::terms::Terms;
use units::amounts::Cents;

impl Terms {
    /// The first j instalments together.
    #[tactic(auto, unfolding(crate::specs::Instalments::paid_up_to))]
    pub fn paid_up_to(&self, j: u8) -> Cents
        ensures value { result.0 ≡ paid_up_to self.now.figures.advance self.now.figures.instalments j }
        ensures small { (result.0 ≤ℤ pos 255000000000000) × (neg_ℤ (pos 255000000000000) ≤ℤ result.0) }
    {
        let figures = self.figures();
        let together = i128::from(j) * i128::from(figures.advance);
        Cents(together.div_euclid(i128::from(figures.instalments)))
    }

    /// Instalment j, from 1.
    pub fn instalment(&self, j: u8) -> Cents
        ensures { result.0 ≡ instalment self.now.figures.advance self.now.figures.instalments j }
    {
        let Cents(now) = self.paid_up_to(j);
        let Cents(before) = self.paid_up_to(j.saturating_sub(1));
        Cents(now - before)
    }
}

/// The instalments of an advance make it up, however many they are.
#[tactic(auto, using(crate::proofs::Instalments::add_up))]
pub fn instalments_add_up() -> u8
    ensures { AddUp }
{
    0
}
