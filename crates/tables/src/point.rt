// A delivery point within its limits.
ghost use Rattle.std.specs.Prelude.{◌≡◌, ◌==◌, true, Some};
ghost use Rattle.tables.specs.PointRows.{point_stands, PointHeld, billed_row};

use crate::lengths::MOST_LOCALITIES;
use crate::locality::Locality;
use crate::rows::{PointRow, Row};
use limits::among;
use tariff::bill::Bill;
use tariff::supply::{CLASSES, MOST_DAYS, MOST_VOLUME, Reading, Supply};

// Beside `Locality`: one generic struct for both, with its ghost field, would derive no `Copy`.
#[derive(Clone, Copy, Debug, PartialEq, Eq)]
pub struct Point {
    pub(crate) row: PointRow,
    ghost stands: { point_stands row ≡ true },
}

impl PointRow {
    #[tactic(auto, unfolding(crate::specs::PointRows::point_stands))]
    fn stands(&self) -> bool
        ensures { result ≡ point_stands self.now }
    {
        self.locality < MOST_LOCALITIES as u64
            && among(CLASSES, self.class)
            && self.domestic <= 1
            && self.volume <= MOST_VOLUME
            && self.days <= MOST_DAYS
    }
}

// A point is made from a row that stands, and from no other.
impl Row for PointRow {
    ghost use Rattle.tables.specs.Records.{point_of};
    ghost use Rattle.tables.specs.Blank.{no_point, no_point_blank};

    type Record = Point;

    ghost stands = { point_stands };

    ghost record_of = { point_of };

    ghost row_of = { λ p. p.row };

    ghost past = { no_point };

    ghost blank = { no_point };

    ghost past_is_blank = { no_point_blank };

    ghost records_stand = { λ p. p.stands };

    fn record(&self) -> Option<Point> {
        if self.stands() {
            Some(Point { row: *self })
        } else {
            None
        }
    }

    fn blank() -> PointRow {
        PointRow::default()
    }
}

impl Point {
    ghost use Rattle.tables.specs.Records.{point_of};

    /// The row to write for it. It reads back as this point.
    pub fn row(&self) -> PointRow
        ensures value { result ≡ self.now.row }
        ensures back { point_of result ≡ Some self.now }
        ensures held { PointHeld result }
    {
        self.row
    }

    /// The area of its locality, its class, and whether it is domestic.
    pub fn supply(&self, locality: &Locality) -> Supply
        ensures area { result.area ≡ locality.now.row.area }
        ensures class { result.class ≡ self.now.row.class }
        ensures domestic { result.domestic ≡ (self.now.row.domestic == 1) }
    {
        let row = self.row();
        // `domestic` is 0 or 1, since rows hold plain numbers.
        Supply::new(locality.row().area, row.class, row.domestic == 1).unwrap()
    }

    /// Its volume and days of the year to date.
    pub fn reading(&self) -> Reading
        ensures volume { result.volume ≡ self.now.row.volume }
        ensures days { result.days ≡ self.now.row.days }
    {
        let row = self.row();
        Reading::new(row.volume, row.days).unwrap()
    }

    /// The row to write for it after a bill, which brings it to another volume and days.
    pub fn billed_row(&self, bill: &Bill) -> PointRow
        ensures { result ≡ billed_row self.now.row bill.now }
    {
        PointRow {
            volume: bill.volume,
            days: bill.days,
            ..self.row
        }
    }
}
