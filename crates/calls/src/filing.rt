// Filing a locality.
ghost use Rattle.std.specs.Prelude.{◌≡◌, ◌<◌, length, OnOk};
ghost use Rattle.calls.specs.Decisions.{filing};

use company::record::Event;
use orders::register::{Register, after_event};
use tables::filing::check_filing;
use tables::lengths::localities_fit;
use tables::lookup::record_at;
use tables::rows::LocalityRow;
use units::refusal::{Reason, Refusal};

/// The row that is filed at a place, or the first refusal.
pub fn filing(
    register: &Register,
    localities: &[LocalityRow],
    place: u64,
    row: LocalityRow,
) -> Result<LocalityRow, Refusal>
    ensures within { OnOk result (place < length localities.now) }
    ensures answer { result ≡ filing register.now.companies localities.now place row }
{
    if !localities_fit(localities) {
        return Err(Reason::PastTable.at(0));
    }
    if place >= localities.len() as u64 {
        return Err(Reason::PastTable.at(place));
    }
    let company = register.asked(row.company)?;
    let old = record_at(localities, place).map(|locality| locality.row());
    check_filing(&old, &row)?;
    after_event(company, row.company, Event::File)?;
    Ok(row)
}
