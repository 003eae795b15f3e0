// What recognised revenue takes of a company beside its localities and points.
ghost use Rattle.std.specs.Prelude.{◌≡◌, ◌≤◌, ◌&&◌, is_some, IfSome, nat_le};

use limits::{Limited, MOST_YEARLY_CENTS};
use units::amounts::PointPrice;

/// The operating price by the company's management rule, and its yearly verification and central cost in cents.
#[derive(Clone, Copy, Debug, PartialEq, Eq)]
pub struct Costs {
    pub(crate) operating: PointPrice,
    pub(crate) verification: u64,
    pub(crate) central: u64,
    ghost price: { operating.0 ≤ 1000000000 },
    ghost first: { verification ≤ 1000000000000 },
    ghost second: { central ≤ 1000000000000 },
}

impl Costs {
    pub fn new(operating: PointPrice, verification: u64, central: u64) -> Option<Costs>
        ensures test { is_some result
            ≡ (nat_le operating.0 1000000000 && nat_le verification 1000000000000 && nat_le central 1000000000000) }
        ensures kept { IfSome result
            (λ c. (c.operating.0 ≡ operating.0) × (c.verification ≡ verification) × (c.central ≡ central)) }
    {
        if operating.is_within()
            && verification <= MOST_YEARLY_CENTS
            && central <= MOST_YEARLY_CENTS
        {
            Some(Costs {
                operating,
                verification,
                central,
            })
        } else {
            None
        }
    }
}
