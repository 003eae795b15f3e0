// Why a call is refused: a reason, which has a number and a layer, and the place at fault.
ghost use Rattle.std.specs.Prelude.{◌≡◌};
ghost use Rattle.units.specs.Refusals.{refusal, reason_number, reason_layer, layer_number};

use std::error::Error;
use std::fmt;

/// The reasons by their numbers, in the order in which a call is tested.
#[derive(Clone, Copy, Debug, PartialEq, Eq)]
pub enum Reason {
    TariffLimit = 1,
    BookNotOpen = 2,
    BookInUse = 3,
    PastTable = 4,
    NothingThere = 5,
    PlaceTaken = 6,
    FigureLimit = 7,
    FiguresAtOdds = 8,
    CompanyClosed = 9,
    CompanyOpen = 10,
    OrderOut = 11,
    AllPaid = 12,
    NotTheOrderOut = 13,
    VolumeRange = 14,
    DaysRange = 15,
    JournalFull = 16,
    NoExpectedPoints = 17,
}

#[derive(Clone, Copy, Debug, PartialEq, Eq)]
pub enum Layer {
    Tariff = 1,
    Tables = 2,
    Book = 3,
    Journal = 4,
}

/// A reason, and where it holds: at a company, a locality, a point, a figure or a length.
#[derive(Clone, Copy, Debug, PartialEq, Eq)]
pub struct Refusal {
    pub reason: Reason,
    pub place: u64,
}

impl Reason {
    pub fn number(self) -> u8
        ensures { result ≡ reason_number self }
    {
        self as u8
    }

    pub fn layer(self) -> Layer
        ensures { result ≡ reason_layer self }
    {
        match self {
            Reason::TariffLimit => Layer::Tariff,
            Reason::BookNotOpen
            | Reason::BookInUse
            | Reason::CompanyClosed
            | Reason::CompanyOpen
            | Reason::OrderOut
            | Reason::AllPaid
            | Reason::NotTheOrderOut => Layer::Book,
            Reason::JournalFull => Layer::Journal,
            Reason::PastTable
            | Reason::NothingThere
            | Reason::PlaceTaken
            | Reason::FigureLimit
            | Reason::FiguresAtOdds
            | Reason::VolumeRange
            | Reason::DaysRange
            | Reason::NoExpectedPoints => Layer::Tables,
        }
    }

    /// The refusal by this reason, with the place at fault.
    pub fn at(self, place: u64) -> Refusal
        ensures { result ≡ refusal self place }
    {
        Refusal {
            reason: self,
            place,
        }
    }

    // What the place of this refusal counts.
    fn place_word(self) -> &'static str {
        match self {
            Reason::TariffLimit | Reason::FigureLimit | Reason::FiguresAtOdds => "figure",
            Reason::CompanyClosed
            | Reason::CompanyOpen
            | Reason::OrderOut
            | Reason::AllPaid
            | Reason::NotTheOrderOut => "company",
            Reason::VolumeRange | Reason::DaysRange => "point",
            Reason::JournalFull => "length",
            Reason::NoExpectedPoints => "locality",
            Reason::BookNotOpen
            | Reason::BookInUse
            | Reason::PastTable
            | Reason::NothingThere
            | Reason::PlaceTaken => "place",
        }
    }
}

// What was found, in words.
impl fmt::Display for Reason {
    fn fmt<W: fmt::Write>(&self, f: &mut fmt::Formatter<W>) -> fmt::Result {
        f.write_str(match self {
            Reason::TariffLimit => "the tariff table breaks a limit",
            Reason::BookNotOpen => "the book is not open",
            Reason::BookInUse => "the book is open already, or its journal is not empty",
            Reason::PastTable =>
                "the place lies past its table, or a table or list has a wrong length",
            Reason::NothingThere => "nothing stands at a place that the call needs",
            Reason::PlaceTaken => "the place is taken",
            Reason::FigureLimit => "a figure lies beyond its limit",
            Reason::FiguresAtOdds =>
                "the figures are at odds with each other or with those on record",
            Reason::CompanyClosed => "the company is closed",
            Reason::CompanyOpen => "the company is open",
            Reason::OrderOut => "an order of the company is out",
            Reason::AllPaid => "every instalment is paid",
            Reason::NotTheOrderOut => "this is not the order that is out",
            Reason::VolumeRange => "the volume would leave 0 to 1000000000",
            Reason::DaysRange => "the days would leave 0 to the days of the year",
            Reason::JournalFull => "the journal is full",
            Reason::NoExpectedPoints => "the locality has no expected points",
        })
    }
}

impl Error for Reason {}

impl Layer {
    pub fn number(self) -> u8
        ensures { result ≡ layer_number self }
    {
        self as u8
    }
}

impl fmt::Display for Layer {
    fn fmt<W: fmt::Write>(&self, f: &mut fmt::Formatter<W>) -> fmt::Result {
        f.write_str(match self {
            Layer::Tariff => "tariff",
            Layer::Tables => "tables",
            Layer::Book => "book",
            Layer::Journal => "journal",
        })
    }
}

impl Refusal {
    pub fn number(&self) -> u8
        ensures { result ≡ reason_number self.now.reason }
    {
        self.reason.number()
    }

    pub fn layer(&self) -> Layer
        ensures { result ≡ reason_layer self.now.reason }
    {
        self.reason.layer()
    }
}

impl fmt::Display for Refusal {
    fn fmt<W: fmt::Write>(&self, f: &mut fmt::Formatter<W>) -> fmt::Result {
        let layer = self.layer();
        write!(
            f,
            "refusal {} (layer {}, {layer}) at {} {}: {}",
            self.number(),
            layer.number(),
            self.reason.place_word(),
            self.place,
            self.reason,
        )
    }
}

impl Error for Refusal {}
