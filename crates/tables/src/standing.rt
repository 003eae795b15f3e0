// Which rows count as localities: each bill asks this, and not which figure is at fault.
ghost use Rattle.std.specs.Prelude.{◌≡◌};
ghost use Rattle.tables.specs.Standing.{row_stands, rows_stand};
ghost use Rattle.tables.specs.Filings.{locality_stands};

use crate::rows::{AssetRow, LocalityRow, MOST_ASSET_CENTS, MOST_COUNT};
use crate::state::STATES;
use limits::{MOST_COMPANIES, among};
use tariff::supply::AREAS;

// Whether an asset row has no fault.
fn row_stands(a: &AssetRow) -> bool
    ensures { result ≡ row_stands a.now }
{
    a.gross <= MOST_ASSET_CENTS
        && a.works <= MOST_ASSET_CENTS
        && a.remaining <= a.net
        && a.net <= a.gross
        && a.remaining <= a.contributions
        && a.contributions <= a.gross
}

fn rows_stand(rows: &[AssetRow; 8]) -> bool
    ensures { result ≡ rows_stand rows.now }
{
    for a in rows {
        if !row_stands(a) {
            return false;
        }
    }
    true
}

/// Whether a row counts as a locality.
#[tactic(auto, using(crate::proofs::Faultless::stands))]
pub fn locality_stands(l: &LocalityRow) -> bool
    ensures { result ≡ locality_stands l.now }
{
    l.company < MOST_COMPANIES as u64
        && among(STATES, l.state)
        && among(AREAS, l.area)
        && l.expected <= MOST_COUNT
        && l.smart <= MOST_COUNT
        && rows_stand(&l.rows)
}
