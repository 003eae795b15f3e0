// The terms of a company: figures that keep every limit, and no others.
ghost use Rattle.std.specs.Prelude.{◌≡◌, false, is_some};
ghost use Rattle.company.specs.Terms.{first_bad_term, Within};

use crate::figures::TermsFigures;
use limits::unless_bad;
use units::refusal::{Reason, Refusal};

/// What a company registered, within every limit.
#[derive(Clone, Copy, Debug, PartialEq, Eq)]
pub struct Terms {
    pub(crate) figures: TermsFigures,
    ghost lawful: { is_some (first_bad_term figures) ≡ false },
}

/// The refusal is by number 7, with the number of the first bad figure.
impl TryFrom<TermsFigures> for Terms {
    ghost use Rattle.company.specs.Made.{terms_of};

    type Error = Refusal;

    ghost try_from_gives = { λ figures r. r ≡ terms_of figures };

    fn try_from(figures: TermsFigures) -> Result<Self, Refusal> {
        unless_bad(Reason::FigureLimit, figures.first_bad())?;
        Ok(Terms { figures })
    }
}

impl Terms {
    /// All figures, each within its limit.
    pub fn figures(&self) -> &TermsFigures
        ensures value { result.now ≡ self.now.figures }
        ensures within { Within result.now }
    {
        &self.figures
    }
}
