// The register of a book: its number and its companies.
ghost use Rattle.std.specs.Prelude.{◌≡◌};
ghost use Rattle.orders.specs.Registers.{place_in, company_at, empty_register, registering, registered_by, after_event, deciding, asked_company};

use company::figures::TermsFigures;
use company::record::{Company, Event};
use company::terms::Terms;
use limits::MOST_COMPANIES;
use units::refusal::{Reason, Refusal};

/// The index of a company's place; refused by 4 past the last one.
pub fn company_place(place: u64) -> Result<usize, Refusal>
    ensures { result ≡ place_in place }
{
    if place >= MOST_COMPANIES as u64 {
        return Err(Reason::PastTable.at(place));
    }
    Ok(place as usize)
}

/// The number of a book, which its orders carry, and its places of companies.
#[derive(Clone, Copy, Debug, PartialEq, Eq)]
pub struct Register {
    pub number: u64,
    pub companies: [Option<Company>; MOST_COMPANIES],
}

impl Register {
    /// The register of a book with a number, in which no company stands.
    pub fn new(number: u64) -> Register
        ensures { result ≡ empty_register number }
    {
        Register {
            number,
            companies: [None; MOST_COMPANIES],
        }
    }

    /// The company at a place; none past the last one.
    // Each bill asks this.
    #[inline(always)]
    pub fn company(&self, place: u64) -> Option<Company>
        ensures { result ≡ company_at self.now.companies place }
    {
        self.companies.get(place as usize).copied().flatten()
    }

    /// The company at a place, for a question; or the first refusal.
    pub fn asked(&self, place: u64) -> Result<Company, Refusal>
        ensures { result ≡ asked_company self.now.companies place }
    {
        company_place(place)?;
        self.company(place).ok_or(Reason::NothingThere.at(place))
    }

    /// Registers a company at a place, and answers its terms; or the first refusal.
    pub fn register(&mut self, place: u64, figures: TermsFigures) -> Result<Terms, Refusal>
        ensures answer { result ≡ registering self.old.companies place figures }
        ensures after { self.new ≡ registered_by self.old place result }
    {
        let index = company_place(place)?;
        if self.company(place).is_some() {
            return Err(Reason::PlaceTaken.at(place));
        }
        let terms = Terms::try_from(figures)?;
        self.companies[index] = Some(Company::new(terms));
        Ok(terms)
    }

    /// What an event meets at a company, which it leaves as it is: the company after it and the instalment that it is about, or the first refusal.
    /// The order that the event names is of the book with a number.
    pub fn meets(&self, number: u64, place: u64, event: Event) -> Result<(Company, u8), Refusal>
        ensures { result ≡ deciding self.now.companies self.now.number number place event }
    {
        let found = self.asked(place)?;
        if number != self.number {
            return Err(Reason::NotTheOrderOut.at(place));
        }
        after_event(found, place, event)
    }
}

/// A company after an event, and the instalment that it is about.
// Each bill asks this.
#[inline(always)]
pub fn after_event(mut company: Company, place: u64, event: Event) -> Result<(Company, u8), Refusal>
    ensures { result ≡ after_event company place event }
{
    let instalment = company.act(event).map_err(|reason| reason.at(place))?;
    Ok((company, instalment))
}
