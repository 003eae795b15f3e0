// The figures that a company registers: plain numbers, not yet held to their limits.
ghost use Rattle.std.specs.Prelude.{◌≡◌};

use limits::{
    AWARD_YEARS, DENSITIES, MOST_CLASS_POINTS, MOST_INSTALMENTS, MOST_YEARLY_CENTS, among,
    first_of, unless,
};

#[derive(Clone, Copy, Debug, PartialEq, Eq)]
pub struct TermsFigures {
    /// The yearly advance, in cents; where it is negative the company pays.
    pub advance: i64,
    /// The number of instalments of the advance.
    pub instalments: u8,
    /// The yearly cost of meter verifications, in cents.
    pub verification: u64,
    /// The yearly central cost, in cents.
    pub central: u64,
    /// Points for class.
    pub points: u64,
    pub density: u8,
    /// The award year.
    pub year: u8,
}

impl TermsFigures {
    ghost use Rattle.limits.specs.First.{first_of};
    ghost use Rattle.company.specs.Terms.{payment_tests, trait_tests, first_bad_term};

    /// The number of the first figure beyond its limit.
    #[tactic(auto, unfolding(crate::specs::Terms::first_bad_term))]
    pub(crate) fn first_bad(&self) -> Option<u64>
        ensures { result ≡ first_bad_term self.now }
    {
        first_of(&[self.first_bad_payment(), self.first_bad_trait()])
    }

    #[tactic(auto, unfolding(crate::specs::Terms::payment_tests))]
    fn first_bad_payment(&self) -> Option<u64>
        ensures { result ≡ first_of (payment_tests self.now) }
    {
        first_of(&[
            unless(self.advance.unsigned_abs() <= MOST_YEARLY_CENTS, 1),
            unless(among(MOST_INSTALMENTS, u64::from(self.instalments)), 2),
            unless(self.verification <= MOST_YEARLY_CENTS, 3),
            unless(self.central <= MOST_YEARLY_CENTS, 4),
        ])
    }

    #[tactic(auto, unfolding(crate::specs::Terms::trait_tests))]
    fn first_bad_trait(&self) -> Option<u64>
        ensures { result ≡ first_of (trait_tests self.now) }
    {
        first_of(&[
            unless(self.points <= MOST_CLASS_POINTS, 5),
            unless(among(DENSITIES, u64::from(self.density)), 6),
            unless(among(AWARD_YEARS, u64::from(self.year)), 7),
        ])
    }
}
