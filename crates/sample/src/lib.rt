// The worked year's tariff table, terms and locality, for programs that run a year.
#![tactic(auto)]

ghost use Rattle.std.specs.Prelude.{◌≡◌, Ok};
ghost use Rattle.limits.specs.Checked.{made_of};
ghost use Rattle.sample.specs.Year.{bracket, worked_table, worked_figures, worked_locality};

use company::figures::TermsFigures;
use tables::rows::{AssetRow, LocalityRow};
use tariff::figures::{Bracket, Coefficient, Life, Rate, TariffFigures};
use tariff::table::Tariff;
use units::amounts::{PointPrice, VolumePrice};
use units::refusal::Refusal;

/// No limit is broken.
#[tactic(auto, using(crate::proofs::Lawful::lawful))]
pub fn tariff() -> Result<Tariff, Refusal>
    ensures { made_of (λ t. t.figures) result ≡ Ok worked_table }
{
    Tariff::try_from(table())
}

fn table() -> TariffFigures
    ensures { result ≡ worked_table }
{
    TariffFigures {
        days: 365,
        distribution: [PointPrice(36_500_000); 24],
        metering: [PointPrice(18_250_000); 24],
        commercial: PointPrice(1_825_000),
        count: 3,
        brackets: [
            bracket(120, 0),
            bracket(480, 8_000_000),
            bracket(1_000_000_000, 5_000_000),
            bracket(0, 0),
            bracket(0, 0),
            bracket(0, 0),
            bracket(0, 0),
            bracket(0, 0),
        ],
        coefficients: [Coefficient(1_000_000); 8],
        gs: VolumePrice(100_000),
        ug1: VolumePrice(40_000),
        rate: Rate(560),
        lives: [
            Life(0),
            Life(0),
            Life(20),
            Life(0),
            Life(0),
            Life(15),
            Life(0),
            Life(0),
        ],
        cou: PointPrice(1_500_000),
        coa: PointPrice(500_000),
        telcon: PointPrice(3_000_000),
        avv: PointPrice(4_000_000),
        ins: PointPrice(3_000_000),
        rac: PointPrice(2_000_000),
    }
}

fn bracket(end: u64, price: u64) -> Bracket
    ensures { result ≡ bracket end price }
{
    Bracket {
        end,
        reference: VolumePrice(price),
    }
}

pub fn terms() -> TermsFigures
    ensures { result ≡ worked_figures }
{
    TermsFigures {
        advance: 100_000,
        instalments: 3,
        verification: 0,
        central: 1_000,
        points: 100,
        density: 1,
        year: 1,
    }
}

/// In regime, in area 1, of company 0.
pub fn locality() -> LocalityRow
    ensures { result ≡ worked_locality }
{
    let mut row = LocalityRow {
        company: 0,
        state: 1,
        area: 1,
        expected: 100,
        smart: 40,
        rows: [AssetRow::default(); 8],
    };
    row.rows[2] = AssetRow {
        gross: 1_000_000,
        net: 600_000,
        ..AssetRow::default()
    };
    row.rows[5] = AssetRow {
        gross: 300_000,
        net: 100_000,
        contributions: 30_000,
        remaining: 10_000,
        ..AssetRow::default()
    };
    row
}
