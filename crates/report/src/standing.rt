// How a company stands, in print.
use std::fmt;
use told::standing::Standing;

#[derive(Clone, Copy, Debug)]
pub(crate) struct Stands(pub(crate) Standing);

impl fmt::Display for Stands {
    fn fmt<W: fmt::Write>(&self, f: &mut fmt::Formatter<W>) -> fmt::Result {
        match self.0 {
            Standing::Closed => f.write_str("closed"),
            Standing::Drawn(k) => write!(f, "open: order for instalment {k} is out, drawn"),
            Standing::Sent(k) => write!(f, "open: order for instalment {k} is out, sent"),
            Standing::Open { unpaid: 0, .. } => f.write_str("open"),
            Standing::Open {
                unpaid,
                instalments,
            } => { write!(f, "open: {unpaid} of {instalments} instalments unpaid") }
        }
    }
}
