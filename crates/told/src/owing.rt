// Who owes whom.
ghost use Rattle.std.specs.Prelude.{◌≡◌};
ghost use Rattle.told.specs.Owing.{owing_of};

use units::amounts::Cents;

/// Who owes a balance, and how many cents.
#[derive(Clone, Copy, Debug)]
pub enum Owing {
    Nobody,
    Fund(u128),
    Company(u128),
}

impl Owing {
    /// A balance that is due to a company: the fund owes it, and the company what is below 0.
    pub fn of(balance: Cents) -> Owing
        ensures { result ≡ owing_of balance.0 }
    {
        let cents = balance.0.unsigned_abs();
        if balance.0 > 0 {
            Owing::Fund(cents)
        } else if balance.0 < 0 {
            Owing::Company(cents)
        } else {
            Owing::Nobody
        }
    }
}
