// The return and the depreciation of asset rows.
ghost use Rattle.std.specs.Prelude.{◌≡◌, ◌≤◌, length};
ghost use Rattle.rounding.specs.Rounding.{rounded};
ghost use Rattle.rounding.specs.Sums.{sum_n};
ghost use Rattle.tables.specs.Filings.{AssetHeld, AllHeld};
ghost use Rattle.costs.specs.Costs.{invested, exact_return, exact_depreciation, depreciation};

use tables::rows::AssetRow;
use tariff::figures::{Life, Rate};

/// Asset rows of a locality, of which each keeps its limits.
#[derive(Clone, Copy, Debug, PartialEq, Eq)]
pub(crate) struct Assets<'a> {
    pub(crate) rows: &'a [AssetRow],
    ghost held: { AllHeld rows.now },
    ghost few: { length rows.now ≤ 8 },
}

impl<'a> Assets<'a> {
    fn invested(self) -> u64
        ensures value { result ≡ sum_n invested self.entry.rows.now }
        ensures small { result ≤ 161280000000000 }
    {
        let mut sum = 0;
        for a in self.rows {
            sum += invested(a);
        }
        sum
    }

    /// Their return at the rate.
    pub(crate) fn return_at(self, rate: Rate) -> u64
        requires { rate.0 ≤ 2000 }
        ensures value { result ≡ rounded (exact_return rate.0 self.entry.rows.now) }
        ensures small { result ≤ 32256000000 }
    {
        rounding::round_half_up(self.invested() * rate.0, 10_000_000)
    }

    /// Their depreciations over their lives.
    pub(crate) fn depreciation(self, lives: &[Life]) -> u64
        requires { length lives.now ≡ length self.rows.now }
        ensures value { result ≡ depreciation self.entry.rows.now lives.now }
        ensures small { result ≤ 80000000000 }
    {
        let mut sum = 0;
        for (a, life) in self.rows.iter().zip(lives) {
            sum += depreciation_of(a, *life);
        }
        sum
    }
}

// Thousandths of a cent of the capital that a row invests.
fn invested(a: &AssetRow) -> u64
    requires { AssetHeld a.now }
    ensures value { result ≡ invested a.now }
    ensures small { result ≤ 20160000000000 }
{
    1000 * (a.net + a.works) + 8 * (a.gross + a.works) - (7 * a.net + 1000 * a.remaining)
}

fn depreciation_of(a: &AssetRow, life: Life) -> u64
    requires { AssetHeld a.now }
    ensures value { result ≡ rounded (exact_depreciation a.now life) }
    ensures small { result ≤ 10000000000 }
{
    rounding::round_half_up(a.gross - a.contributions, life.0)
}
