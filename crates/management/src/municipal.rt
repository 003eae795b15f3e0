// The municipal rule: the price of the company's own size.
ghost use Rattle.std.specs.Prelude.{◌≡◌};
ghost use Rattle.limits.specs.Checked.{made_of};
ghost use Rattle.management.specs.Limits.{municipal_limited};
ghost use Rattle.management.specs.Prices.{checked};
ghost use Rattle.management.specs.Rules.{municipal_price};

use crate::prices::Prices;
use crate::rule::Management;
use crate::size::Size;
use crate::traits::Traits;
use units::amounts::PointPrice;
use units::refusal::Refusal;

/// Nine prices, of which each company has that of its own size.
#[derive(Clone, Copy, Debug, PartialEq, Eq)]
pub struct Municipal {
    prices: Prices,
}

/// The refusal names the first price beyond the limit.
impl TryFrom<[PointPrice; 9]> for Municipal {
    type Error = Refusal;

    ghost try_from_gives = { λ prices r. made_of (λ m. m.prices.list) r ≡ checked prices };

    fn try_from(prices: [PointPrice; 9]) -> Result<Self, Refusal> {
        Ok(Municipal {
            prices: Prices::try_from(prices)?,
        })
    }
}

impl Management for Municipal {
    ghost price = { λ m points density year. municipal_price m.prices.list points density };

    ghost limited = { λ m points density year. municipal_limited m.prices.list m.prices.within points density };

    fn operating_price(&self, traits: Traits) -> PointPrice {
        self.prices.of(Size::of(traits.points), traits).figure
    }
}
