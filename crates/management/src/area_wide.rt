// The area-wide rule: the large price, reached in steps by award year where the company is not large.
ghost use Rattle.std.specs.Prelude.{◌≡◌};
ghost use Rattle.limits.specs.Checked.{made_of};
ghost use Rattle.management.specs.Limits.{area_wide_limited};
ghost use Rattle.management.specs.Prices.{checked};
ghost use Rattle.management.specs.Rules.{area_wide_price};

use crate::prices::Prices;
use crate::rule::Management;
use crate::size::Size;
use crate::traits::Traits;
use crate::weights::Weights;
use units::amounts::PointPrice;
use units::refusal::Refusal;

/// Nine prices, of which each company has the large one in the end.
// A type beside Municipal, not one generic over the formula: all that they share is in Prices, and a marker type for each would be longer.
#[derive(Clone, Copy, Debug, PartialEq, Eq)]
pub struct AreaWide {
    prices: Prices,
}

/// The refusal names the first price beyond the limit.
impl TryFrom<[PointPrice; 9]> for AreaWide {
    type Error = Refusal;

    ghost try_from_gives = { λ prices r. made_of (λ a. a.prices.list) r ≡ checked prices };

    fn try_from(prices: [PointPrice; 9]) -> Result<Self, Refusal> {
        Ok(AreaWide {
            prices: Prices::try_from(prices)?,
        })
    }
}

impl Management for AreaWide {
    ghost price = { λ a points density year. area_wide_price a.prices.list points density year };

    ghost limited = { λ a points density year. area_wide_limited a.prices.list a.prices.within points density year };

    fn operating_price(&self, traits: Traits) -> PointPrice {
        let large = self.prices.of(Size::Large, traits);
        if traits.points > 300_000 {
            return large.figure;
        }
        let medium = self.prices.of(Size::Medium, traits);
        Weights::of(traits).mean(medium, large).figure
    }
}
