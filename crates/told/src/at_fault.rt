// The figure of a statement that a refusal means by its number.
ghost use Rattle.std.specs.Prelude.{◌≡◌};
ghost use Rattle.told.specs.Places.{place_of};

use bookfile::statement::{Field, Statement};

/// The figure with a number. It is counted from 1 without the places that a statement names before its figures: none in an opening, two in a filing and an
/// enrolling, and else one.
pub fn field_at_fault(statement: Statement, figure: u64) -> Field
    ensures { (result.statement ≡ statement) × (result.place ≡ place_of statement figure) }
{
    let place = match statement {
        Statement::Opening => figure.saturating_sub(1),
        Statement::File | Statement::Enrol => figure.saturating_add(1),
        _ => figure,
    };
    Field {
        statement,
        place: place as usize,
    }
}
