// A year of a book that is run in one call, and what it came to.
use crate::digest::Digest;
use crate::figures::municipal;
use crate::plan::{BOOK, Size, calls, filings};
use book::book::Book;
use booklaws::answer::Granted;
use calls::call::Call;
use journal::entry::Entry;
use journal::lent_journal::LentJournal;
use management::municipal::Municipal;
use std::alloc::Global;
use tables::lengths::{MOST_LOCALITIES, MOST_POINTS};
use tables::rows::{LocalityRow, PointRow};
use tariff::table::Tariff;
use units::refusal::{Reason, Refusal};
use yearly::run::run_year;

/// A book, and all that its year is lent. Each list is written before the year is run, so that the run is first to touch no memory.
#[derive(Drop)]
pub struct Year<'a> {
    tariff: Tariff,
    book: Book<LentJournal<'a>, Municipal>,
    localities: Vec<LocalityRow>,
    points: Vec<PointRow>,
    filings: Vec<LocalityRow>,
    calls: Vec<Call>,
    answers: Vec<Result<Granted, Refusal>>,
}

/// How many bills were granted, what they charged together, and a digest of all their figures.
#[derive(Clone, Copy, Default)]
pub struct Billed {
    pub bills: u64,
    pub tariff: i128,
    pub ug1: i128,
    pub digest: Digest,
}

impl<'a> Year<'a> {
    /// A year whose book is not open yet. Its tables hold rows that opening has to blank.
    pub fn new(heap: Global, entries: &'a mut [Entry], size: Size) -> anyhow::Result<Year<'a>> {
        let calls = calls(heap, size)?;
        let unanswered = Err(Reason::BookNotOpen.at(0));
        let answers = vec![in heap; unanswered; calls.len()]?;
        let used = PointRow {
            class: 1,
            ..PointRow::default()
        };
        Ok(Year {
            tariff: sample::tariff()?,
            book: Book::new(LentJournal::new(entries), municipal()?),
            localities: vec![in heap; sample::locality(); MOST_LOCALITIES]?,
            points: vec![in heap; used; MOST_POINTS]?,
            filings: filings(heap)?,
            calls,
            answers,
        })
    }

    /// The whole year.
    pub fn run(&mut self) -> Result<(), Refusal> {
        run_year(
            &mut self.book,
            &self.tariff,
            BOOK,
            0,
            self.localities.as_mut_slice(),
            self.points.as_mut_slice(),
            self.filings.as_slice(),
            self.calls.as_slice(),
            self.answers.as_mut_slice(),
        )
    }

    pub fn calls(&self) -> &[Call] {
        self.calls.as_slice()
    }

    /// The answers, each at its call's place.
    pub fn answers(&self) -> &[Result<Granted, Refusal>] {
        self.answers.as_slice()
    }

    pub fn granted(&self) -> usize {
        self.answers()
            .iter()
            .filter(|answer| answer.is_ok())
            .count()
    }

    pub fn billed(&self) -> Billed {
        let mut billed = Billed::default();
        for answer in self.answers() {
            if let Ok(Granted::Billed(bill)) = answer {
                billed.bills = billed.bills.wrapping_add(1);
                billed.tariff = billed.tariff.wrapping_add(bill.charge.tariff.0);
                billed.ug1 = billed.ug1.wrapping_add(bill.charge.ug1.0);
                billed.digest.add_bill(bill);
            }
        }
        billed
    }

    pub fn entries(&self) -> usize {
        self.book.journal_len()
    }

    /// One number of all entries in their order.
    pub fn digest(&self) -> Digest {
        let mut digest = Digest::default();
        for place in 0..self.entries() {
            if let Some(entry) = self.book.entry(place) {
                digest.add_entry(&entry);
            }
        }
        digest
    }
}
