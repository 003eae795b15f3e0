// How many quarters of the medium and of the large price count, by award year.
ghost use Rattle.std.specs.Prelude.{◌≡◌, ◌+◌};
ghost use Rattle.management.specs.Weights.{weights_of, mean};

use crate::traits::Traits;
use limits::Fitting;
use rounding::round_half_up;
use units::amounts::PointPrice;

/// So many quarters of the medium price, then so many of the large price.
#[derive(Clone, Copy, Debug, PartialEq, Eq)]
pub struct Weights(pub u64, pub u64);

// Of award years 1 to 12, one entry a year.
const WEIGHTS: [Weights; 12] = [
    Weights(2, 2),
    Weights(2, 2),
    Weights(2, 2),
    Weights(2, 2),
    Weights(1, 3),
    Weights(0, 4),
    Weights(0, 4),
    Weights(0, 4),
    Weights(0, 4),
    Weights(0, 4),
    Weights(0, 4),
    Weights(0, 4),
];

impl Weights {
    /// The weights of the award year of these traits.
    pub fn of(traits: Traits) -> Weights
        ensures { result ≡ weights_of traits.year }
    {
        WEIGHTS[traits.year as usize - 1]
    }

    /// The mix of both prices, as one price that is rounded once.
    #[tactic(auto, using(crate::specs::Limits::mean_limited))]
    pub(crate) fn mean(
        self,
        medium: Fitting<PointPrice>,
        large: Fitting<PointPrice>,
    ) -> Fitting<PointPrice>
        requires { self.0 + self.1 ≡ 4 }
        ensures { result.figure.0 ≡ mean self medium.figure.0 large.figure.0 }
    {
        let Weights(of_medium, of_large) = self;
        let weighed = medium.figure.0 * of_medium + large.figure.0 * of_large;
        Fitting {
            figure: PointPrice(round_half_up(weighed, 4)),
        }
    }
}
