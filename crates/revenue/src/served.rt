// The points that a company served, no more than the tables of a book can have.
ghost use Rattle.std.specs.Prelude.{◌≡◌, ◌≤◌, ◌&&◌, is_some, IfSome};
ghost use Rattle.std.specs.Option.{option_map};
ghost use Rattle.revenue.specs.Served.{served_for, served_within};

use tariff::table::Tariff;
use units::amounts::MilliPoints;

pub mod revenue;

/// Served points by the state of their localities.
#[derive(Clone, Copy, Debug, PartialEq, Eq)]
pub struct Served {
    pub regime: MilliPoints,
    pub startup: MilliPoints,
    ghost few: { regime.0 ≤ 131465216 },
    ghost less: { startup.0 ≤ 131465216 },
}

// The most cents that line 3 of all points comes to.
const MOST_COMMERCIAL_CENTS: u64 = 6_571_556_864;

// The most served points of a book.
const MOST_SERVED: MilliPoints = MilliPoints(131_465_216);

// The points that so many cents of line 3 stand for, where a book can have so many.
fn served_for(tariff: &Tariff, cents: u64) -> Option<MilliPoints>
    ensures { option_map (λ n. n.0) result ≡ served_within tariff.now.figures cents }
{
    if cents > MOST_COMMERCIAL_CENTS {
        return None;
    }
    let points = rounding::round_half_up(cents * 10_000_000, tariff.figures().commercial.0);
    if points > MOST_SERVED.0 {
        return None;
    }
    Some(MilliPoints(points))
}

impl Served {
    /// The most cents that line 3 of all points comes to.
    const MOST_COMMERCIAL_CENTS: u64 = 6_571_556_864;

    // The most served points of a book.
    const MOST_SERVED: MilliPoints = MilliPoints(131_465_216);

    // The points that so many cents of line 3 stand for, in regime and in start-up; none where no book can have so many.
    pub fn of(tariff: &Tariff, regime: u64, startup: u64) -> Option<Served>
        ensures test { is_some result
            ≡ (is_some (served_within tariff.now.figures regime)
            && is_some (served_within tariff.now.figures startup)) }
        ensures kept { IfSome result
            (λ s. (s.regime.0 ≡ served_for tariff.now.figures regime)
            × (s.startup.0 ≡ served_for tariff.now.figures startup)) }
    {
        Some(Served {
            regime: served_for(tariff, regime)?,
            startup: served_for(tariff, startup)?,
        })
    }
}
