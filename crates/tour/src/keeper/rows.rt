// Opening a book, registering companies, and the calls that write a row.
use crate::keeper::Keeper;
use calls::enrolling::Enrolment;
use company::figures::TermsFigures;
use lines::{Call, Lines};
use tables::rows::{LocalityRow, PointRow};
use tariff::supply::Change;
use tariff::table::Tariff;

impl<'a> Keeper<'a> {
    pub fn open(&mut self, lines: &mut Lines<'_>, tariff: &Tariff, number: u64, sum: i64) {
        let call = Call::new(self.at, "open book", number);
        match self.book.open(tariff, number, sum, &mut self.localities, &mut self.points) {
            Ok(()) => lines.granted(call, "sum", sum),
            Err(refusal) => lines.refused(call, refusal),
        }
    }

    /// Opens the book with another table of points.
    pub fn open_with(&mut self, lines: &mut Lines<'_>, tariff: &Tariff, points: &mut [PointRow]) {
        let call = Call::new(
            self.at,
            "open book 7 over a point table of length",
            points.len() as u64,
        );
        match self.book.open(tariff, 7, 0, &mut self.localities, points) {
            Ok(()) => lines.granted(call, "sum", 0),
            Err(refusal) => lines.refused(call, refusal),
        }
    }

    pub fn register(&mut self, lines: &mut Lines<'_>, company: u64, figures: TermsFigures) {
        let call = Call::new(self.at, "register company", company);
        match self.book.register(company, figures) {
            Ok(terms) => lines.granted(call, "advance", terms.figures().advance),
            Err(refusal) => lines.refused(call, refusal),
        }
    }

    pub fn file(&mut self, lines: &mut Lines<'_>, place: u64, row: LocalityRow) {
        let call = Call::new(self.at, "file locality", place);
        match self.book.file(&mut self.localities, place, row) {
            Ok(row) => lines.granted(call, "expected points", row.expected),
            Err(refusal) => lines.refused(call, refusal),
        }
    }

    pub fn enrol(&mut self, lines: &mut Lines<'_>, point: u64, locality: u64, class: u64) {
        let call = Call::new(self.at, "enrol point", point);
        let enrolment = Enrolment {
            locality,
            class,
            domestic: 0,
        };
        match self
            .book
            .enrol(&self.localities, &mut self.points, point, enrolment)
        {
            Ok(row) => lines.granted(call, "class", row.class),
            Err(refusal) => lines.refused(call, refusal),
        }
    }

    pub fn bill(&mut self, lines: &mut Lines<'_>, point: u64, volume: i64, days: i64) {
        let call = Call::new(self.at, "bill point", point);
        let change = Change { volume, days };
        match self
            .book
            .bill(&self.localities, &mut self.points, point, change)
        {
            Ok(bill) => lines.granted(call, "charge", bill.charge.tariff),
            Err(refusal) => lines.refused(call, refusal),
        }
    }

    /// Bills nothing to a point, until the journal is full.
    pub fn fill(&mut self, lines: &mut Lines<'_>, point: u64) {
        let nothing = Change { volume: 0, days: 0 };
        for _ in self.book.journal_len()..self.book.journal_capacity() {
            let _ = self
                .book
                .bill(&self.localities, &mut self.points, point, nothing);
        }
        let call = Call::new(self.at, "bills of nothing to point", point);
        lines.figure(call, "entries", self.book.journal_len());
        lines.figure(call, "capacity", self.book.journal_capacity());
    }
}
