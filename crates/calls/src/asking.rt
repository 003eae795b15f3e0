// What a question finds at the place that it names.
ghost use Rattle.std.specs.Prelude.{◌≡◌};
ghost use Rattle.limits.specs.Checked.{made_of};
ghost use Rattle.orders.specs.Registers.{asked_company};
ghost use Rattle.calls.specs.Decisions.{asked_locality};

use tables::lengths::localities_fit;
use tables::locality::Locality;
use tables::lookup::record_at;
use tables::rows::LocalityRow;
use units::refusal::{Reason, Refusal};

/// The locality at a place, or the first refusal.
pub fn asked_locality(localities: &[LocalityRow], place: u64) -> Result<Locality, Refusal>
    ensures { made_of (λ l. l.row) result ≡ asked_locality localities.now place }
{
    if !localities_fit(localities) {
        return Err(Reason::PastTable.at(0));
    }
    if place >= localities.len() as u64 {
        return Err(Reason::PastTable.at(place));
    }
    record_at(localities, place).ok_or(Reason::NothingThere.at(place))
}
