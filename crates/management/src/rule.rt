// The rules of management, seen from the book.
ghost use Rattle.std.specs.Prelude.{◌≡◌, ℕ, ◌≤◌};

use crate::traits::Traits;
use units::amounts::PointPrice;

/// How a company is managed, as far as it decides what operating a point may cost.
pub trait Management {
    // The rule's whole meaning: the price at so many points for class, a density and an award year, as a `PointPrice` counts it.
    ghost price: { Self → ℕ → ℕ → ℕ → ℕ };

    // No rule answers more than 10^9.
    ghost limited: { (m : Self) (points density year : ℕ) → price m points density year ≤ 1000000000 };

    /// The price at these traits. Asking leaves the rule as it is.
    fn operating_price(&self, traits: Traits) -> PointPrice
        ensures value { result.0 ≡ price self.now traits.points traits.density traits.year }
        ensures small { result.0 ≤ 1000000000 };
}
