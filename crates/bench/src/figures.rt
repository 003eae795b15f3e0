// The figures of the benchmark: those of the worked year, and formulas of the company, the place and the round.
use calls::enrolling::Enrolment;
use company::figures::TermsFigures;
use management::municipal::Municipal;
use tables::rows::{AssetRow, LocalityRow};
use tariff::supply::Change;
use units::amounts::PointPrice;
use units::refusal::Refusal;

pub fn municipal() -> Result<Municipal, Refusal> {
    let prices = [
        30_000_000, 28_000_000, 26_000_000, 27_000_000, 25_000_000, 23_000_000, 24_000_000,
        22_000_000, 20_000_000,
    ];
    Municipal::try_from(prices.map(PointPrice))
}

/// The sixteen companies are of each size and density; six of them pay their advance.
pub fn terms(company: u64) -> TermsFigures {
    let place = company % 16;
    TermsFigures {
        advance: 100_000 - 10_001 * place as i64,
        verification: 500 * place,
        points: 4096 + 30_000 * place,
        density: 1 + (place % 3) as u8,
        ..sample::terms()
    }
}

/// The localities lie with the sixteen companies in turn, and in the eight areas in turn; of a company's, each other one is in start-up.
pub fn locality(place: u64) -> LocalityRow {
    let mut row = LocalityRow {
        company: place % 16,
        state: 1 + place / 16 % 2,
        area: 1 + place % 8,
        expected: 256,
        ..sample::locality()
    };
    row.rows[2] = AssetRow {
        gross: 1_000_000 + 1001 * (place % 256),
        ..row.rows[2]
    };
    row
}

/// The points lie in the 256 localities in turn.
pub fn enrolment(point: u64) -> Enrolment {
    Enrolment {
        locality: point % 256,
        class: 1 + point % 3,
        domestic: point % 2,
    }
}

/// From 28 to 30 days, and from 20 to 199 Smc; each sixth round takes up to 19 Smc back.
pub fn change(point: u64, round: u64) -> Change {
    let volume = if round % 6 == 5 {
        -((point % 20) as i64)
    } else {
        (20 + (7 * (point % 1009) + 13 * (round % 12)) % 180) as i64
    };
    Change {
        volume,
        days: (28 + (point % 3 + round % 3) % 3) as i64,
    }
}
