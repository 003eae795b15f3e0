// How a company stands at the end of its year, and why it is not closed.
ghost use Rattle.std.specs.Prelude.{◌≡◌};
ghost use Rattle.told.specs.Standings.{standing_of};

use company::record::{Company, Phase};

/// How a company stands. An order that is out has to be settled before the company is closed.
#[derive(Clone, Copy, Debug)]
pub enum Standing {
    Closed,
    Drawn(u8),
    Sent(u8),
    /// Open without an order out, with so many of its instalments unpaid.
    Open { unpaid: u8, instalments: u8 },
}

impl Standing {
    pub fn of(company: &Company) -> Standing
        ensures { result ≡ standing_of company.now }
    {
        let instalments = company.terms.figures().instalments;
        match company.phase {
            Phase::Closed => Standing::Closed,
            Phase::Drawn(instalment) => Standing::Drawn(instalment),
            Phase::Sent(instalment) => Standing::Sent(instalment),
            Phase::Free => Standing::Open {
                unpaid: instalments.saturating_sub(company.paid),
                instalments,
            },
        }
    }
}
