// How large a company is.
ghost use Rattle.std.specs.Prelude.{◌≡◌};
ghost use Rattle.management.specs.Sizes.{size_of, figure};

use crate::traits::Traits;

/// The sizes by their numbers.
#[derive(Clone, Copy, Debug, PartialEq, Eq)]
pub enum Size {
    Small = 1,
    Medium = 2,
    Large = 3,
}

impl Size {
    /// The size of a company by its points for class.
    pub fn of(points: u64) -> Size
        ensures { result ≡ size_of points }
    {
        match points {
            ..=50_000 => Size::Small,
            ..=300_000 => Size::Medium,
            _ => Size::Large,
        }
    }

    /// The number of the price of this size at the density of these traits.
    pub fn figure(self, traits: Traits) -> u64
        ensures { result ≡ figure self traits.density }
    {
        3 * (self as u64 - 1) + traits.density
    }
}
