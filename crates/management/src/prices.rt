// Nine prices within their limit: for each size, small first, one for each density.
ghost use Rattle.std.specs.Prelude.{◌≡◌, false, is_some};
ghost use Rattle.limits.specs.Checked.{made_of};
ghost use Rattle.limits.specs.First.{point_price_fits, first_beyond};
ghost use Rattle.management.specs.Prices.{checked, price_of};

use crate::size::Size;
use crate::traits::Traits;
use limits::{Fitting, first_beyond, unless_bad};
use units::amounts::PointPrice;
use units::refusal::{Reason, Refusal};

#[derive(Clone, Copy, Debug, PartialEq, Eq)]
pub struct Prices {
    list: [PointPrice; 9],
    ghost within: { is_some (first_beyond point_price_fits 1 list) ≡ false },
}

/// The refusal names the first price beyond the limit.
impl TryFrom<[PointPrice; 9]> for Prices {
    type Error = Refusal;

    ghost try_from_gives = { λ list r. made_of (λ p. p.list) r ≡ checked list };

    fn try_from(list: [PointPrice; 9]) -> Result<Self, Refusal> {
        unless_bad(Reason::FigureLimit, first_beyond(1, &list))?;
        Ok(Prices { list })
    }
}

impl Prices {
    /// The price of a size, at the density of these traits.
    #[tactic(auto, using(crate::specs::Limits::at_limited))]
    pub fn of(&self, size: Size, traits: Traits) -> Fitting<PointPrice>
        ensures { result.figure.0 ≡ price_of self.now.list size traits.density }
    {
        Fitting {
            figure: self.list[size.figure(traits) as usize - 1],
        }
    }
}
