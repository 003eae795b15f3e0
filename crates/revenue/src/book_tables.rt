// The two lent tables, neither longer than it may be.
ghost use Rattle.std.specs.Prelude.{◌≡◌, ◌≤◌, ◌&&◌, length, is_some, IfSome, nat_le};

use tables::lengths::tables_fit;
use tables::rows::{LocalityRow, PointRow};

pub mod outcome;
pub mod sums;
pub mod ug1;

/// The locality table, of at most 256 rows, and the point table, of at most 65,536. The tariff and the company that are asked for stay parameters:
/// in one value with the tables, each clause would name all four through it.
#[derive(Clone, Copy, Debug, PartialEq, Eq)]
pub struct Tables<'a> {
    pub(crate) localities: &'a [LocalityRow],
    pub(crate) points: &'a [PointRow],
    ghost few: { length localities.now ≤ 256 },
    ghost many: { length points.now ≤ 65536 },
}

impl<'a> Tables<'a> {
    /// Both tables, if neither is longer than it may be.
    pub fn new(localities: &'a [LocalityRow], points: &'a [PointRow]) -> Option<Tables<'a>>
        ensures test { is_some result ≡ (nat_le (length localities.now) 256 && nat_le (length points.now) 65536) }
        ensures kept { IfSome result (λ t. (t.localities.now ≡ localities.now) × (t.points.now ≡ points.now)) }
    {
        if tables_fit(localities, points) {
            Some(Tables { localities, points })
        } else {
            None
        }
    }
}
