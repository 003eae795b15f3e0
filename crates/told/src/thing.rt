// What the number of a refusal's place counts.
ghost use Rattle.std.specs.Prelude.{◌≡◌};
ghost use Rattle.told.specs.Things.{subject, past, missing, thing_of};

use calls::call::{Call, Question};
use tables::lengths::{MOST_LOCALITIES, MOST_POINTS};
use units::refusal::{Reason, Refusal};

/// What the number of a refusal's place counts.
#[derive(Clone, Copy, Debug)]
pub enum Thing {
    /// Nothing that a call names, as where the book is not open.
    Place,
    Company,
    Locality,
    Point,
    Figure,
    JournalLength,
}

impl Thing {
    /// That of a refusal which a call answers.
    pub fn of(call: Call, refusal: Refusal) -> Thing
        ensures { result ≡ thing_of call refusal }
    {
        match refusal.reason {
            Reason::BookNotOpen | Reason::BookInUse => Thing::Place,
            Reason::PastTable => past(call),
            Reason::NothingThere => missing(call, refusal.place),
            Reason::PlaceTaken => subject(call),
            Reason::TariffLimit | Reason::FigureLimit | Reason::FiguresAtOdds => Thing::Figure,
            Reason::CompanyClosed
            | Reason::CompanyOpen
            | Reason::OrderOut
            | Reason::AllPaid
            | Reason::NotTheOrderOut => Thing::Company,
            Reason::VolumeRange | Reason::DaysRange => Thing::Point,
            Reason::JournalFull => Thing::JournalLength,
            Reason::NoExpectedPoints => Thing::Locality,
        }
    }

    /// What it is called.
    pub fn word(self) -> &'static str {
        match self {
            Thing::Place => "place",
            Thing::Company => "company",
            Thing::Locality => "locality",
            Thing::Point => "point",
            Thing::Figure => "figure",
            Thing::JournalLength => "journal length",
        }
    }

    /// What is wrong at such a place, where its kind says more than the reason.
    pub fn found(self, reason: Reason) -> Option<&'static str> {
        match (reason, self) {
            (Reason::PastTable, Thing::Company) => Some("companies have the places 0 to 15"),
            (Reason::PastTable, Thing::Locality) => Some("localities have the places 0 to 255"),
            (Reason::PastTable, Thing::Point) => Some("points have the places 0 to 65535"),
            (Reason::NothingThere, Thing::Company) => Some("no company is registered there"),
            (Reason::NothingThere, Thing::Locality) => Some("no locality is filed there"),
            (Reason::NothingThere, Thing::Point) => Some("no point is enrolled there"),
            (Reason::PlaceTaken, Thing::Company) => Some("a company is registered there"),
            (Reason::PlaceTaken, Thing::Point) => Some("a point is enrolled there"),
            _ => None,
        }
    }
}

// What the place counts that a call is about.
fn subject(call: Call) -> Thing
    ensures { result ≡ subject call }
{
    match call {
        Call::File { .. }
        | Call::Ask(Question::CapitalCost { .. } | Question::UnitComponent { .. }) =>
            Thing::Locality,
        Call::Enrol { .. } | Call::Bill { .. } => Thing::Point,
        Call::Ask(Question::Account) => Thing::Place,
        _ => Thing::Company,
    }
}

// Which place of a call lies past its table: the first that it names, unless that one has a row.
fn past(call: Call) -> Thing
    ensures { result ≡ past call }
{
    match call {
        Call::File { locality, .. } if locality < MOST_LOCALITIES as u64 => Thing::Company,
        Call::Enrol { point, .. } if point < MOST_POINTS as u64 => Thing::Locality,
        _ => subject(call),
    }
}

// At which place of a call nothing stands. A place to which only a row leads has no name here.
fn missing(call: Call, place: u64) -> Thing
    ensures { result ≡ missing call place }
{
    match call {
        Call::File { .. } => Thing::Company,
        Call::Enrol { enrolment, .. } if place == enrolment.locality => Thing::Locality,
        Call::Bill { point, .. } if place == point => Thing::Point,
        Call::Enrol { .. } | Call::Bill { .. } => Thing::Place,
        _ => subject(call),
    }
}
