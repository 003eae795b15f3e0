// Which figure of a tariff table is the first beyond its limit.
ghost use Rattle.std.specs.Prelude.{◌≡◌, ◌+◌, ◌≤◌, ◌<◌, Bool, false, length, is_some, MatchOption};
ghost use Rattle.limits.specs.First.{first_beyond, first_of};
ghost use Rattle.tariff.specs.Limits.{days_fit, rate_fits, coefficient_fits, life_fits, reference_fits, brackets_of, first_bad_end, fixed_tests, variable_tests, cost_tests, first_bad_figure, Within};

use crate::figures::{Bracket, Coefficient, Life, Rate, TariffFigures};
use crate::supply::MOST_VOLUME;
use limits::{Limited, among, first_beyond, first_of, unless};

impl Limited for Coefficient {
    ghost fits = { coefficient_fits };

    fn is_within(&self) -> bool {
        self.0 <= 2_000_000
    }
}

impl Limited for Rate {
    ghost fits = { rate_fits };

    fn is_within(&self) -> bool {
        self.0 <= 2000
    }
}

impl Limited for Life {
    ghost fits = { life_fits };

    fn is_within(&self) -> bool {
        self.0 <= 60
    }
}

impl Limited for Bracket {
    ghost fits = { reference_fits };

    fn is_within(&self) -> bool {
        self.reference.is_within()
    }
}

// `first_beyond` at lists as short as those of a tariff table.
fn first_bad<F: Limited>(first: u64, list: &[F]) -> Option<u64>
    requires { first + length list.now ≤ 2000 }
    ensures { result ≡ first_beyond F.Limited.fits first list.now }
{
    first_beyond(first, list)
}

// The number of the first bad end of brackets whose first end has the number `first`.
fn first_bad_end(first: u64, brackets: &[Bracket]) -> Option<u64>
    requires { first + length brackets.now ≤ 2000 }
    ensures { result ≡ first_bad_end first brackets.now }
{
    match brackets {
        [] => None,
        [last] => unless(last.end == MOST_VOLUME, first),
        [bracket, next, ..] => {
            if bracket.end < next.end {
                first_bad_end(first + 1, &brackets[1..])
            } else {
                Some(first + 1)
            }
        }
    }
}

fn days_fit(days: u64) -> bool
    ensures { result ≡ days_fit days }
{
    matches!(days, 365 | 366)
}

// The days, the fixed charges and the number of brackets.
#[tactic(auto, unfolding(crate::specs::Limits::fixed_tests))]
fn first_bad_fixed(f: &TariffFigures) -> Option<u64>
    ensures { result ≡ first_of (fixed_tests f.now) }
{
    first_of(&[
        unless(days_fit(f.days), 1),
        first_bad(2, &f.distribution),
        first_bad(26, &f.metering),
        unless(among(1_000_000_000, f.commercial.0), 50),
        unless(among(8, f.count as u64), 51),
    ])
}

/// The figures of a table whose brackets have room: those past the number of brackets have numbers.
#[derive(Clone, Copy, Debug, PartialEq, Eq)]
pub(crate) struct Counted<'a> {
    pub(crate) figures: &'a TariffFigures,
    ghost few: { figures.now.count ≤ 8 },
}

impl<'a> Counted<'a> {
    fn of(figures: &'a TariffFigures) -> Option<Counted<'a>>
        ensures { MatchOption result (8 < figures.now.count) (λ c. c.figures.now ≡ figures.now) }
    {
        if figures.count > 8 {
            return None;
        }
        Some(Counted { figures })
    }

    // The brackets of the table: the first `count` places.
    pub(crate) fn brackets(self) -> &'a [Bracket]
        ensures value { result.now ≡ brackets_of self.entry.figures.now }
        ensures len { length result.now ≡ self.entry.figures.now.count }
    {
        &self.figures.brackets[..self.figures.count]
    }

    // The brackets, the areas' coefficients, GS and UG1.
    #[tactic(auto, unfolding(crate::specs::Limits::variable_tests))]
    fn first_bad_variable(self) -> Option<u64>
        ensures { result ≡ first_of (variable_tests self.entry.figures.now) }
    {
        let f = self.figures;
        let k = f.count as u64;
        first_of(&[
            first_bad_end(52, self.brackets()),
            first_bad(52 + k, self.brackets()),
            first_bad(52 + 2 * k, &f.coefficients),
            first_bad(60 + 2 * k, &[f.gs, f.ug1]),
        ])
    }

    // The rate of return, the lives and the prices that make up recognised revenue.
    #[tactic(auto, unfolding(crate::specs::Limits::cost_tests))]
    fn first_bad_cost(self) -> Option<u64>
        ensures { result ≡ first_of (cost_tests self.entry.figures.now) }
    {
        let f = self.figures;
        let k = f.count as u64;
        first_of(&[
            unless(f.rate.is_within(), 62 + 2 * k),
            first_bad(63 + 2 * k, &f.lives),
            first_bad(71 + 2 * k, &[f.cou, f.coa, f.telcon, f.avv, f.ins, f.rac]),
        ])
    }
}

/// The number of the first figure beyond its limit, or at odds with the figure before it; none exactly where every limit is kept.
pub fn first_bad_figure(f: &TariffFigures) -> Option<u64>
    ensures value { result ≡ first_bad_figure f.now }
    ensures kept { is_some result ≡ false → Within f.now }
    ensures only { Within f.now → is_some result ≡ false }
{
    let fixed = first_bad_fixed(f);
    // past 8 brackets no later figure is asked for
    let Some(counted) = Counted::of(f) else {
        return fixed;
    };
    first_of(&[
        fixed,
        counted.first_bad_variable(),
        counted.first_bad_cost(),
    ])
}
