// What a call is answered, as plain numbers.
use orders::order::Order;
use revenue::parts::Revenue;
use tariff::bill::Bill;
use units::amounts::{Cents, MilliPoints};

/// What a granted call answers.
#[derive(Clone, Copy, Debug, PartialEq, Eq)]
pub enum Granted {
    Registered,
    Filed,
    Enrolled,
    Billed(Bill),
    Drawn(Order),
    Cancelled,
    Sent,
    /// The advance that a confirming paid.
    Paid(Cents),
    Bounced,
    /// The balance that a closing booked.
    Closed(Cents),
    Reopened,
    /// In cents.
    CapitalCost(u64),
    /// In millionths of a euro.
    UnitComponent(u64),
    Served {
        regime: MilliPoints,
        startup: MilliPoints,
    },
    Revenue(Revenue),
    BalanceDue(Cents),
    Account(Cents),
}
