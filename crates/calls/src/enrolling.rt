// Enrolling a point.
ghost use Rattle.std.specs.Prelude.{◌≡◌, ◌<◌, length, OnOk};
ghost use Rattle.calls.specs.Decisions.{enrolled_within, enrolling};

use crate::records::Records;
use company::record::Event;
use limits::among;
use orders::register::after_event;
use tables::lengths::tables_fit;
use tables::lookup::record_at;
use tables::rows::PointRow;
use tariff::supply::CLASSES;
use units::refusal::{Reason, Refusal};

/// The locality's place, the class and the domestic sign with which a point is enrolled: plain numbers, since the call refuses those beyond their limits.
#[derive(Clone, Copy, Debug, PartialEq, Eq)]
pub struct Enrolment {
    pub locality: u64,
    pub class: u64,
    pub domestic: u64,
}

impl<'a> Records<'a> {
    /// The row of a point that is enrolled in a locality, or the first refusal.
    pub fn enrolling(self, point: u64, enrolment: Enrolment) -> Result<PointRow, Refusal>
        ensures within { OnOk result (point < length self.entry.points.now) }
        ensures answer { result
            ≡ enrolling self.entry.register.now.companies self.entry.localities.now self.entry.points.now point
            enrolment.locality enrolment.class enrolment.domestic }
    {
        if !tables_fit(self.localities, self.points) {
            return Err(Reason::PastTable.at(0));
        }
        if point >= self.points.len() as u64 {
            return Err(Reason::PastTable.at(point));
        }
        let place = enrolment.locality;
        if place >= self.localities.len() as u64 {
            return Err(Reason::PastTable.at(place));
        }
        let locality = record_at(self.localities, place).ok_or(Reason::NothingThere.at(place))?;
        let owner = locality.row().company;
        let company = self
            .register
            .company(owner)
            .ok_or(Reason::NothingThere.at(owner))?;
        if record_at(self.points, point).is_some() {
            return Err(Reason::PlaceTaken.at(point));
        }
        let row = enrolment.row()?;
        after_event(company, owner, Event::Enrol)?;
        Ok(row)
    }
}

impl Enrolment {
    // The row of a new point, unless its class or domestic is beyond its limit.
    fn row(self) -> Result<PointRow, Refusal>
        ensures { result ≡ enrolled_within self.locality self.class self.domestic }
    {
        if !among(CLASSES, self.class) {
            return Err(Reason::FigureLimit.at(1));
        }
        if self.domestic > 1 {
            return Err(Reason::FigureLimit.at(2));
        }
        Ok(PointRow {
            locality: self.locality,
            class: self.class,
            domestic: self.domestic,
            volume: 0,
            days: 0,
        })
    }
}
