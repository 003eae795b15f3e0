// The plain rows of the two tables that are lent to the book.
ghost use Rattle.std.specs.Prelude.{◌≡◌, Bool, true, false, Option, MatchOption};

/// The most cents of a figure of an asset row.
pub const MOST_ASSET_CENTS: u64 = 10_000_000_000;

/// The most expected points of a locality, and its most smart points.
pub const MOST_COUNT: u64 = 10_000_000;

/// A row of a lent table. It stands if it keeps its limits; any other row counts as blank.
pub trait Row: Copy {
    /// What stands in a row.
    type Record;

    ghost stands: { Self → Bool };

    ghost record_of: { Self → Option Self.Record };

    ghost row_of: { Self.Record → Self };

    // What is read past the end of a table.
    ghost past: { Self };

    ghost blank: { Self };

    /// The record that stands in the row; a blank row has none.
    fn record(&self) -> Option<Self::Record>
        ensures value { result ≡ record_of self.now }
        ensures row { MatchOption result (stands self.now ≡ false) (λ r. row_of r ≡ self.now) };

    /// A row with no figures.
    fn blank() -> Self
        ensures { result ≡ blank };

    ghost past_is_blank: { stands past ≡ false };

    ghost records_stand: { (r : Self.Record) → stands (row_of r) ≡ true };
}

// The rows hold plain numbers, also for a state or a class: the caller lends them, and a row that breaks a limit is read as a blank one.

/// An asset row of a locality, in cents.
#[derive(Clone, Copy, Debug, Default, PartialEq, Eq)]
pub struct AssetRow {
    pub gross: u64,
    pub net: u64,
    /// Works in progress.
    pub works: u64,
    pub contributions: u64,
    /// The contributions that are not yet degraded.
    pub remaining: u64,
}

/// A locality as it is filed. Its first five asset rows belong to distribution, the last three to metering.
#[derive(Clone, Copy, Debug, Default, PartialEq, Eq)]
pub struct LocalityRow {
    pub company: u64,
    /// 1 in regime, 2 in start-up.
    pub state: u64,
    pub area: u64,
    pub expected: u64,
    pub smart: u64,
    pub rows: [AssetRow; 8],
}

/// A delivery point, with its volume and days of the year to date.
#[derive(Clone, Copy, Debug, Default, PartialEq, Eq)]
pub struct PointRow {
    pub locality: u64,
    pub class: u64,
    pub domestic: u64,
    pub volume: u64,
    pub days: u64,
}
