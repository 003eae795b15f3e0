// Limits of figures by their kind, and the first bad one of numbered figures.
#![tactic(auto)]

ghost use Rattle.std.specs.Prelude.{◌≡◌, ◌+◌, ◌^◌, ◌<◌, Bool, true, not, length, None, IfSome, OnOk};
ghost use Rattle.std.specs.List.{position_from};
ghost use Rattle.limits.specs.Checked.{unless_bad};
ghost use Rattle.limits.specs.First.{point_price_fits, volume_price_fits, among, unless, first_beyond, first_of};

use units::amounts::{PointPrice, VolumePrice};
use units::refusal::{Reason, Refusal};

/// The places for companies in a book, which are numbered from 0.
pub const MOST_COMPANIES: usize = 16;

/// The most cents of a yearly advance, on either side of 0, and of a yearly cost of a company.
pub const MOST_YEARLY_CENTS: u64 = 1_000_000_000_000;

/// The most points for class of a company.
pub const MOST_CLASS_POINTS: u64 = 100_000_000;

/// The densities are numbered from 1 to this.
pub const DENSITIES: u64 = 3;

/// The award years are numbered from 1 to this.
pub const AWARD_YEARS: u64 = 12;

/// The most instalments of a yearly advance.
pub const MOST_INSTALMENTS: u64 = 12;

/// A figure that has a limit by its kind.
pub trait Limited {
    ghost fits: { Self → Bool };

    fn is_within(&self) -> bool
        ensures { result ≡ fits self.now };
}

/// A figure within its limit. It has no `Copy`, which a generic struct with a ghost field does not derive.
#[derive(Drop)]
pub struct Fitting<F: Limited> {
    pub figure: F,
    ghost fits: { F.Limited.fits figure ≡ true },
}

impl Limited for PointPrice {
    ghost fits = { point_price_fits };

    fn is_within(&self) -> bool {
        self.0 <= 1_000_000_000
    }
}

impl Limited for VolumePrice {
    ghost fits = { volume_price_fits };

    fn is_within(&self) -> bool {
        self.0 <= 100_000_000
    }
}

/// Whether a number is one of 1 to `most`.
pub fn among(most: u64, n: u64) -> bool
    ensures { result ≡ among most n }
{
    (1..=most).contains(&n)
}

/// The number of a figure that does not fit.
pub fn unless(fits: bool, number: u64) -> Option<u64>
    ensures { result ≡ unless fits number }
{
    if fits { None } else { Some(number) }
}

/// The first number that was found.
pub fn first_of(found: &[Option<u64>]) -> Option<u64>
    ensures { result ≡ first_of found.now }
{
    // Tried by `find_map`, and by `find` and `flatten`: the proof did not close.
    for number in found {
        if number.is_some() {
            return *number;
        }
    }
    None
}

/// The number of the first bad figure of a list whose first has the number `first`. The numbers have 64 bits.
pub fn first_beyond<F: Limited>(first: u64, list: &[F]) -> Option<u64>
    ensures { first + length list.now < 2 ^ 64 → result ≡ first_beyond F.Limited.fits first list.now }
{
    let place = first_outside(list)?;
    Some(first.saturating_add(place as u64))
}

// The place of the first figure that does not fit.
fn first_outside<F: Limited>(list: &[F]) -> Option<usize>
    ensures place { result ≡ position_from (λ figure. not (F.Limited.fits figure)) 0 list.now }
    ensures within { IfSome result (λ i. i < length list.now) }
{
    list.iter().position(|figure| !figure.is_within())
}

/// Refuses where a bad figure was found, with its number.
pub fn unless_bad(reason: Reason, found: Option<u64>) -> Result<(), Refusal>
    ensures value { result ≡ unless_bad reason tt found }
    ensures none { OnOk result (found ≡ None) }
{
    match found {
        None => Ok(()),
        Some(number) => Err(reason.at(number)),
    }
}
