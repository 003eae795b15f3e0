// The calls of a book file told one after the other, as they were answered.
ghost use Rattle.std.specs.Prelude.{◌≡◌, is_ok};
ghost use Rattle.told.specs.Counts.{counted};
ghost use Rattle.told.specs.Saying.{said_of};
ghost use Rattle.told.specs.SoFar.{readings_after, filed_after};

use crate::so_far::{SoFar, YearToDate};
use crate::summary::Summary;
use bookfile::file::NumberedCall;
use booklaws::answer::Granted;
use calls::call::Call;
use units::refusal::Refusal;

/// A refused call, its line, and the year to date of the point that it bills.
#[derive(Clone, Copy, Debug)]
pub struct RefusedCall {
    pub line: usize,
    pub call: Call,
    pub refusal: Refusal,
    pub on_record: YearToDate,
}

/// What is told of an answer.
#[derive(Clone, Copy, Debug)]
pub enum Said {
    /// A granted call; it may file a locality again.
    Granted { granted: Granted, again: bool },
    Refused(RefusedCall),
}

/// What the calls that were told left, and how many they are.
#[derive(Debug, Drop)]
pub struct Saying {
    pub so_far: SoFar,
    pub summary: Summary,
}

impl Saying {
    /// What is told of the next call.
    pub fn next(&mut self, numbered: NumberedCall, answer: Result<Granted, Refusal>) -> Said
        ensures said { result ≡ said_of self.old.so_far numbered answer }
        ensures readings { self.new.so_far.readings.items
            ≡ readings_after self.old.so_far.readings.items numbered.call answer }
        ensures filed { self.new.so_far.filed.items ≡ filed_after self.old.so_far.filed.items numbered.call answer }
        ensures summary { self.new.summary ≡ counted self.old.summary numbered.line (is_ok answer) }
    {
        let NumberedCall { line, call } = numbered;
        let said = match answer {
            Ok(granted) => Said::Granted {
                granted,
                again: self.so_far.is_filed_by(call),
            },
            Err(refusal) => Said::Refused(RefusedCall {
                line,
                call,
                refusal,
                on_record: self.so_far.read_by(call),
            }),
        };
        self.summary.count(line, answer.is_ok());
        self.so_far.note(call, answer);
        said
    }
}
