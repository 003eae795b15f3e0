// What filed figures of a locality meet.
ghost use Rattle.std.specs.Prelude.{◌≡◌, ℕ, ◌*◌, ◌<◌, ◌&&◌, nat_le};
ghost use Rattle.limits.specs.Checked.{faultless};
ghost use Rattle.tables.specs.Filings.{Test, Limits, Odds, row_fault, rows_fault, limit_fault, change_fault, odds_fault, filing_fault};

use crate::rows::{AssetRow, LocalityRow, MOST_ASSET_CENTS, MOST_COUNT};
use crate::state::STATES;
use limits::{among, first_of, unless, unless_bad};
use tariff::supply::AREAS;
use units::refusal::{Reason, Refusal};

// The figures of asset row 1 to 8 against their limit. Row r has the figures from 5r.
fn limit_of_row(row: u8, a: &AssetRow) -> Option<u64>
    ensures { result ≡ row_fault Limits (5 * row) a.now }
{
    let n = 5 * row as u64;
    unless(a.gross <= MOST_ASSET_CENTS, n)
        .or_else(|| unless(a.net <= MOST_ASSET_CENTS, n + 1))
        .or_else(|| unless(a.works <= MOST_ASSET_CENTS, n + 2))
        .or_else(|| unless(a.contributions <= MOST_ASSET_CENTS, n + 3))
        .or_else(|| unless(a.remaining <= MOST_ASSET_CENTS, n + 4))
}

fn remaining_fits(a: &AssetRow) -> bool
    ensures { result ≡ (nat_le a.now.remaining a.now.net && nat_le a.now.remaining a.now.contributions) }
{
    a.remaining <= a.net && a.remaining <= a.contributions
}

// A row's figures against one another: the later figure of a pair is named.
fn odds_of_row(row: u8, a: &AssetRow) -> Option<u64>
    ensures { result ≡ row_fault Odds (5 * row) a.now }
{
    let n = 5 * row as u64;
    unless(a.net <= a.gross, n + 1)
        .or_else(|| unless(a.contributions <= a.gross, n + 3))
        .or_else(|| unless(remaining_fits(a), n + 4))
}

// The first fault of asset rows, by one test of a row and its number.
fn fault_of_rows<F: Fn(u8, &AssetRow) -> Option<u64>>(rows: &[AssetRow; 8], fault: F) -> Option<u64>
    ghost test: { Test }
    requires callable { F.IsAlwaysCallable fault }
    requires tests { (row : ℕ) (a : _) (r : _) → row < 256 → F.post fault row a r → r ≡ row_fault test (5 * row) a.now }
    ensures { result ≡ rows_fault test 5 rows.now }
{
    // A loop: tried by `find_map`, and the proof did not close.
    for (i, a) in rows.iter().enumerate() {
        let found = fault(i as u8 + 1, a);
        if found.is_some() {
            return found;
        }
    }
    None
}

// The first figure beyond its limit.
#[tactic(auto, unfolding(crate::specs::Filings::limit_fault))]
fn limit_fault(l: &LocalityRow) -> Option<u64>
    ensures { result ≡ limit_fault l.now }
{
    first_of(&[
        unless(among(STATES, l.state), 1),
        unless(among(AREAS, l.area), 2),
        unless(l.expected <= MOST_COUNT, 3),
        unless(l.smart <= MOST_COUNT, 4),
        fault_of_rows(&l.rows, limit_of_row),
    ])
}

// What filing again may not change.
fn change_fault(old: &Option<LocalityRow>, new: &LocalityRow) -> Option<u64>
    ensures { result ≡ change_fault old.now new.now }
{
    let old = old.as_ref()?;
    first_of(&[
        unless(new.company == old.company, 0),
        unless(new.state == old.state, 1),
        unless(new.area == old.area, 2),
    ])
}

// The first figure at odds.
#[tactic(auto, unfolding(crate::specs::Filings::odds_fault))]
fn odds_fault(old: &Option<LocalityRow>, new: &LocalityRow) -> Option<u64>
    ensures { result ≡ odds_fault old.now new.now }
{
    first_of(&[
        change_fault(old, new),
        fault_of_rows(&new.rows, odds_of_row),
    ])
}

/// Refuses figures that may not be filed over those on record, if there are any: by 7 at the first figure beyond its limit, else by 8 at
/// the first at odds.
pub fn check_filing(old: &Option<LocalityRow>, new: &LocalityRow) -> Result<(), Refusal>
    ensures { result ≡ faultless (filing_fault old.now new.now) tt }
{
    unless_bad(Reason::FigureLimit, limit_fault(new))?;
    unless_bad(Reason::FiguresAtOdds, odds_fault(old, new))
}

#[cfg(test)]
mod tests {
    use super::*;

    // A figure beyond its limit is told before one at odds, which is told by the later of the two.
    #[test]
    fn first_fault_is_told(rt: HostRuntime) {
        let mut row = LocalityRow {
            state: 1,
            area: 1,
            ..LocalityRow::default()
        };
        row.rows[1].gross = 5;
        assert_eq!(rt; check_filing(&None, &row), Ok(()));
        row.rows[1].net = 6;
        assert_eq!(rt;
            check_filing(&None, &row),
            Err(Reason::FiguresAtOdds.at(11))
        );
        row.area = 9;
        assert_eq!(rt; check_filing(&None, &row), Err(Reason::FigureLimit.at(2)));
    }

    // Refiled, a locality keeps its state.
    #[test]
    fn state_stays(rt: HostRuntime) {
        let old = LocalityRow {
            state: 2,
            area: 1,
            ..LocalityRow::default()
        };
        let new = LocalityRow { state: 1, ..old };
        assert_eq!(rt;
            check_filing(&Some(old), &new),
            Err(Reason::FiguresAtOdds.at(1))
        );
    }
}
