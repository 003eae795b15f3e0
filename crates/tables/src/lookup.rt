// What stands at a place of a table.
ghost use Rattle.std.specs.Prelude.{◌≡◌, false, MatchOption, slice_index_or};
ghost use Rattle.std.specs.Option.{option_map};
ghost use Rattle.tables.specs.Lookups.{row_at};

use crate::rows::Row;

/// The record at a place of a table, if one stands there.
pub fn record_at<R: Row>(rows: &[R], place: u64) -> Option<R::Record>
    ensures value { option_map R.row_of result ≡ row_at R.stands R.past rows.now place }
    ensures row { MatchOption result (R.stands (slice_index_or rows.now place R.past) ≡ false)
        (λ r. R.row_of r ≡ slice_index_or rows.now place R.past) }
{
    let place = usize::try_from(place).ok()?;
    rows.get(place)?.record()
}
