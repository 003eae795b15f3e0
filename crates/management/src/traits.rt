// The traits of a company that a management rule looks at.
ghost use Rattle.std.specs.Prelude.{◌≡◌, ◌≤◌, is_some, IfSome};
ghost use Rattle.management.specs.Traits.{within_limits};

use limits::{AWARD_YEARS, DENSITIES, MOST_CLASS_POINTS, among};

/// Points for class, density and award year, each within its limits. The rules number the densities, and the nine prices are listed by these numbers.
#[derive(Clone, Copy, Debug, PartialEq, Eq)]
pub struct Traits {
    pub points: u64,
    pub density: u64,
    pub year: u64,
    ghost few: { points ≤ 100000000 },
    ghost dense: { 1 ≤ density },
    ghost sparse: { density ≤ 3 },
    ghost first: { 1 ≤ year },
    ghost last: { year ≤ 12 },
}

impl Traits {
    /// The traits with these figures, if each is within its limits.
    pub fn new(points: u64, density: u64, year: u64) -> Option<Traits>
        ensures test { is_some result ≡ within_limits points density year }
        ensures figures { IfSome result (λ t. (t.points ≡ points) × (t.density ≡ density) × (t.year ≡ year)) }
    {
        if points <= MOST_CLASS_POINTS && among(DENSITIES, density) && among(AWARD_YEARS, year) {
            Some(Traits {
                points,
                density,
                year,
            })
        } else {
            None
        }
    }
}
