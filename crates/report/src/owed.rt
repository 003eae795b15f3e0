// Who owes whom, in print.
use std::fmt;
use told::owing::Owing;
use units::amounts::Cents;

/// A balance that is due to a company, told as who owes whom.
#[derive(Clone, Copy, Debug)]
pub(crate) struct Owed {
    pub(crate) company: u64,
    pub(crate) balance: Cents,
}

impl fmt::Display for Owed {
    fn fmt<W: fmt::Write>(&self, f: &mut fmt::Formatter<W>) -> fmt::Result {
        let company = self.company;
        match Owing::of(self.balance) {
            Owing::Nobody => f.write_str("nothing is owed"),
            Owing::Fund(cents) => write!(f, "the fund owes company {company} {cents} cents"),
            Owing::Company(cents) => write!(f, "company {company} owes the fund {cents} cents"),
        }
    }
}
