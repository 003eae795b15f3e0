// The entry that confirming an order appends to the journal.
ghost use Rattle.std.specs.Prelude.{◌≡◌};
ghost use Rattle.orders.specs.Payments.{advance_entry};

use journal::entry::{Entry, Kind};
use units::amounts::Cents;

/// An advance of so many cents, which pays an instalment of a company.
pub(crate) fn advance_entry(company: u8, instalment: u8, amount: Cents) -> Entry
    ensures { result ≡ advance_entry company instalment amount }
{
    Entry {
        kind: Kind::Advance,
        company,
        place: u64::from(instalment),
        amount,
        ..Entry::default()
    }
}
