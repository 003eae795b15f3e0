// The calls of a book as plain numbers. A call refuses what is beyond its limits, so that any numbers may be handed in.
use crate::enrolling::Enrolment;
use company::figures::TermsFigures;
use orders::order::Order;
use tables::service::Service;
use tariff::supply::Change;

#[derive(Clone, Copy, Debug, PartialEq, Eq)]
pub enum Call {
    /// A company registers its terms.
    Register { company: u64, terms: TermsFigures },
    /// A locality is filed: the row is the one with this index in a list of filings. So a call stays small.
    File { locality: u64, filing: usize },
    /// A delivery point is enrolled in a locality.
    Enrol { point: u64, enrolment: Enrolment },
    /// A bill changes a point's volume and days of the year to date.
    Bill { point: u64, change: Change },
    /// An order is drawn for the instalment after those that a company is paid.
    Draw { company: u64 },
    /// A drawn order is cancelled.
    Cancel(Order),
    /// A drawn order is sent.
    Send(Order),
    /// A sent order is confirmed.
    Confirm(Order),
    /// A sent order bounces.
    Bounce(Order),
    /// A company's year is closed.
    Close { company: u64 },
    /// A closed company is reopened.
    Reopen { company: u64 },
    Ask(Question),
}

// A year has many calls, and a filing's row is no part of one.
const _: () = prove!(size_of::<Call>() <= 64);

/// A question, which leaves all as it is.
#[derive(Clone, Copy, Debug, PartialEq, Eq)]
pub enum Question {
    CapitalCost { locality: u64, service: Service },
    UnitComponent { locality: u64, service: Service },
    Served { company: u64 },
    Revenue { company: u64 },
    BalanceDue { company: u64 },
    Account,
}
