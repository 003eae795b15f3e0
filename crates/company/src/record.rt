// A company's record, and what each event makes of it.
ghost use Rattle.std.specs.Prelude.{◌≡◌, pos, neg_ℤ, ◌≤ℤ◌};
ghost use Rattle.company.specs.declared.record.Event.TheVariants.{Draw};
ghost use Rattle.company.specs.declared.record.Phase.TheVariants.{Free};
ghost use Rattle.company.specs.Events.{act_answer, act_after, advances, new_company};

use crate::terms::Terms;
use units::amounts::Cents;
use units::refusal::Reason;

/// How a company stands. An order that is out is for an instalment.
#[derive(Clone, Copy, Debug, PartialEq, Eq)]
pub enum Phase {
    /// Open, with no order out.
    Free,
    Drawn(u8),
    Sent(u8),
    Closed,
}

/// What a call asks of a company. An order's events name its instalment.
#[derive(Clone, Copy, Debug, PartialEq, Eq)]
pub enum Event {
    File,
    Enrol,
    Bill,
    Draw,
    Cancel(u8),
    Send(u8),
    Confirm(u8),
    Bounce(u8),
    Close,
    Reopen,
}

/// A company of the book.
#[derive(Clone, Copy, Debug, PartialEq, Eq)]
pub struct Company {
    pub terms: Terms,
    /// How many instalments are paid.
    pub paid: u8,
    pub phase: Phase,
    /// The balances that its closings booked, added up, in cents.
    pub balances: i64,
}

impl Company {
    /// A company that has just registered.
    pub fn new(terms: Terms) -> Company
        ensures { result ≡ new_company terms }
    {
        Company {
            terms,
            paid: 0,
            phase: Phase::Free,
            balances: 0,
        }
    }

    /// The instalments that are paid, together.
    pub fn advances(&self) -> Cents
        ensures value { result.0 ≡ advances self.now }
        ensures small { (result.0 ≤ℤ pos 255000000000000) × (neg_ℤ (pos 255000000000000) ≤ℤ result.0) }
    {
        self.terms.paid_up_to(self.paid)
    }

    /// Takes an event: answers the instalment that it is about, or 0, and moves. A refused event moves nothing.
    pub fn act(&mut self, event: Event) -> Result<u8, Reason>
        ensures answer { result ≡ act_answer self.old event }
        ensures after { self.new ≡ act_after self.old event }
    {
        match (self.phase, event) {
            (
                Phase::Closed,
                Event::File | Event::Enrol | Event::Bill | Event::Draw | Event::Close,
            ) => Err(Reason::CompanyClosed),
            (_, Event::File | Event::Enrol | Event::Bill) => Ok(0),
            (Phase::Free, Event::Draw) => self.draw(),
            (Phase::Free, Event::Close) => {
                self.phase = Phase::Closed;
                Ok(0)
            }
            (_, Event::Draw | Event::Close) => Err(Reason::OrderOut),
            (Phase::Closed, Event::Reopen) => {
                self.phase = Phase::Free;
                Ok(0)
            }
            (_, Event::Reopen) => Err(Reason::CompanyOpen),
            (Phase::Drawn(j), Event::Cancel(k)) if j == k => {
                self.phase = Phase::Free;
                Ok(k)
            }
            (Phase::Drawn(j), Event::Send(k)) if j == k => {
                self.phase = Phase::Sent(k);
                Ok(k)
            }
            (Phase::Sent(j), Event::Confirm(k)) if j == k => {
                self.phase = Phase::Free;
                self.paid = k;
                Ok(k)
            }
            (Phase::Sent(j), Event::Bounce(k)) if j == k => {
                self.phase = Phase::Free;
                Ok(k)
            }
            _ => Err(Reason::NotTheOrderOut),
        }
    }

    // Draws the order for the instalment after those that are paid, of a company without an order out.
    fn draw(&mut self) -> Result<u8, Reason>
        requires { self.old.phase ≡ Free }
        ensures answer { result ≡ act_answer self.old Draw }
        ensures after { self.new ≡ act_after self.old Draw }
    {
        if self.paid >= self.terms.figures().instalments {
            return Err(Reason::AllPaid);
        }
        let next = self.paid + 1;
        self.phase = Phase::Drawn(next);
        Ok(next)
    }
}
