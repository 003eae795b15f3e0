// The entries that the calls of a book append to its journal.
ghost use Rattle.std.specs.Prelude.{◌≡◌};
ghost use Rattle.booklaws.specs.Closings.{balance_entry};
ghost use Rattle.booklaws.specs.Rows.{bill_entry};

use calls::billing::Charged;
use journal::entry::{Entry, Kind};
use tariff::supply::Change;
use units::amounts::Cents;

/// A bill's entry: the changes, lines 1 to 4 charged, and what lines 6 and 5 gained.
pub fn bill_entry(charged: &Charged, point: u64, change: Change) -> Entry
    ensures { result ≡ bill_entry charged.now point change.volume change.days }
{
    let charge = &charged.bill.charge;
    Entry {
        kind: Kind::Bill,
        company: charged.company,
        place: point,
        volume: change.volume,
        days: change.days,
        amount: charge.tariff,
        ug1: charge.ug1,
        other: charge.gs,
    }
}

/// A closing's entry: the balance that it books.
pub fn balance_entry(company: u8, balance: Cents) -> Entry
    ensures { result ≡ balance_entry company balance }
{
    Entry {
        kind: Kind::Balance,
        company,
        amount: balance,
        ..Entry::default()
    }
}
