// A tariff table: figures that keep every limit, made from those and from no others.
ghost use Rattle.std.specs.Prelude.{◌≡◌, false, is_some};
ghost use Rattle.limits.specs.Checked.{made_of};
ghost use Rattle.tariff.specs.Limits.{first_bad_figure};
ghost use Rattle.tariff.specs.Made.{checked};

use crate::figure_limits::first_bad_figure;
use crate::figures::TariffFigures;
use limits::unless_bad;
use units::refusal::{Reason, Refusal};

pub mod prices;

#[derive(Clone, Copy, Debug, PartialEq, Eq)]
pub struct Tariff {
    pub(crate) figures: TariffFigures,
    ghost lawful: { is_some (first_bad_figure figures) ≡ false },
}

impl TryFrom<TariffFigures> for Tariff {
    type Error = Refusal;

    ghost try_from_gives = { λ figures r. made_of (λ t. t.figures) r ≡ checked figures };

    /// The table of these figures, or refusal 1 with the number of the first bad figure.
    fn try_from(figures: TariffFigures) -> Result<Tariff, Refusal> {
        unless_bad(Reason::TariffLimit, first_bad_figure(&figures))?;
        Ok(Tariff { figures })
    }
}
