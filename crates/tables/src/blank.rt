// Blanking a table.
ghost use Rattle.std.specs.Prelude.{◌≡◌, length, replicate};

use crate::rows::Row;

/// Every row of the table is blank afterwards.
pub fn blank<R: Row>(rows: &mut [R])
    ensures { rows.new ≡ replicate (length rows.old) R.blank }
{
    // Not `fill`: it clones, and no contract says that a clone of any `Copy` value is that value. The borrow checker does not cover `fill_with` here.
    for row in rows.iter_mut() {
        *row = R::blank();
    }
}
