// What the calls that were told so far leave on record.
ghost use Rattle.std.specs.Prelude.{◌≡◌};
ghost use Rattle.told.specs.Saying.{read_by, filed_by};
ghost use Rattle.told.specs.SoFar.{readings_after, filed_after};

use booklaws::answer::Granted;
use calls::call::Call;
use std::alloc::{AllocError, Global};
use tables::lengths::{MOST_LOCALITIES, MOST_POINTS};
use units::refusal::Refusal;

/// A point's year to date, in Smc and days.
#[derive(Clone, Copy, Debug, Default)]
pub struct YearToDate {
    pub volume: u64,
    pub days: u64,
}

/// The year to date of each point, and which localities are filed.
#[derive(Debug, Drop)]
pub struct SoFar {
    pub readings: Vec<YearToDate>,
    pub filed: Vec<bool>,
}

impl SoFar {
    /// Before the first call.
    pub fn new(heap: Global) -> Result<SoFar, AllocError> {
        Ok(SoFar {
            readings: vec![in heap; YearToDate::default(); MOST_POINTS]?,
            filed: vec![in heap; false; MOST_LOCALITIES]?,
        })
    }

    /// Takes note of what a call was answered.
    pub fn note(&mut self, call: Call, answer: Result<Granted, Refusal>)
        ensures readings { self.new.readings.items ≡ readings_after self.old.readings.items call answer }
        ensures filed { self.new.filed.items ≡ filed_after self.old.filed.items call answer }
    {
        match (call, answer) {
            (Call::Bill { point, .. }, Ok(Granted::Billed(bill))) => {
                if point < self.readings.len() as u64 {
                    self.readings[point as usize] = YearToDate {
                        volume: bill.volume,
                        days: bill.days,
                    };
                }
            }
            (Call::File { locality, .. }, Ok(_)) => {
                if locality < self.filed.len() as u64 {
                    self.filed[locality as usize] = true;
                }
            }
            _ => {}
        }
    }

    /// The year to date of the point that a call bills; nothing before its first bill.
    pub fn read_by(&self, call: Call) -> YearToDate
        ensures { result ≡ read_by self.now call }
    {
        match call {
            Call::Bill { point, .. } => self
                .readings
                .get(point as usize)
                .copied()
                .unwrap_or(YearToDate::default()),
            _ => YearToDate::default(),
        }
    }

    /// Whether a call files a locality that is filed.
    pub fn is_filed_by(&self, call: Call) -> bool
        ensures { result ≡ filed_by self.now call }
    {
        match call {
            Call::File { locality, .. } => self
                .filed
                .get(locality as usize)
                .copied()
                .unwrap_or(false),
            _ => false,
        }
    }
}
