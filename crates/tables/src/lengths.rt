// How long the two tables that are lent to a book may be.
ghost use Rattle.std.specs.Prelude.{◌≡◌};
ghost use Rattle.tables.specs.Lengths.{localities_fit, tables_fit};

use crate::rows::{LocalityRow, PointRow};

/// The most localities that a book has.
pub const MOST_LOCALITIES: usize = 256;

/// The most points that a book has.
pub const MOST_POINTS: usize = 65_536;

/// Whether a locality table is no longer than it may be.
#[inline(always)]
pub fn localities_fit(localities: &[LocalityRow]) -> bool
    ensures { result ≡ localities_fit localities.now }
{
    localities.len() <= MOST_LOCALITIES
}

/// Whether neither table is longer than it may be.
#[inline(always)]
pub fn tables_fit(localities: &[LocalityRow], points: &[PointRow]) -> bool
    ensures { result ≡ tables_fit localities.now points.now }
{
    localities_fit(localities) && points.len() <= MOST_POINTS
}
