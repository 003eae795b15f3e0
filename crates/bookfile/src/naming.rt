// What figure each number of a tariff table names.
ghost use Rattle.std.specs.Prelude.{◌≡◌, ◌+◌, ◌*◌, ◌<◌, MatchOption};
ghost use Rattle.bookfile.specs.Naming.{Nameless, Named};

use std::fmt;

/// A figure of a tariff table. Areas, classes, brackets and asset rows count from 1.
#[derive(Clone, Copy, Debug)]
pub enum Figure {
    Days,
    Distribution { area: u64, class: u64 },
    Metering { area: u64, class: u64 },
    Commercial,
    BracketCount,
    BracketEnd { bracket: u64 },
    BracketPrice { bracket: u64 },
    Coefficient { area: u64 },
    Gs,
    Ug1,
    Rate,
    Life { row: u64 },
    Cou,
    Coa,
    Telcon,
    Avv,
    Ins,
    Rac,
}

/// The figure with this number in a table of so many brackets.
pub fn figure_at(number: u64, brackets: u64) -> Option<Figure>
    ensures { MatchOption result (Nameless number brackets) (λ f. Named f number brackets) }
{
    match number {
        0 => None,
        1 => Some(Figure::Days),
        2..=25 => Some(Figure::Distribution {
            area: (number - 2) / 3 + 1,
            class: (number - 2) % 3 + 1,
        }),
        26..=49 => Some(Figure::Metering {
            area: (number - 26) / 3 + 1,
            class: (number - 26) % 3 + 1,
        }),
        50 => Some(Figure::Commercial),
        51 => Some(Figure::BracketCount),
        _ => past_count(number - 51, brackets),
    }
}

// The nth figure after the number of brackets.
fn past_count(n: u64, brackets: u64) -> Option<Figure>
    requires { 0 < n }
    ensures { MatchOption result (76 + 2 * brackets < 51 + n) (λ f. Named f (51 + n) brackets) }
{
    if n <= brackets {
        return Some(Figure::BracketEnd { bracket: n });
    }
    let n = n - brackets;
    if n <= brackets {
        return Some(Figure::BracketPrice { bracket: n });
    }
    past_brackets(n - brackets, brackets)
}

// The nth figure after the brackets.
fn past_brackets(n: u64, brackets: u64) -> Option<Figure>
    requires { 0 < n }
    ensures { MatchOption result (25 < n) (λ f. Named f (51 + (2 * brackets + n)) brackets) }
{
    match n {
        1..=8 => Some(Figure::Coefficient { area: n }),
        9 => Some(Figure::Gs),
        10 => Some(Figure::Ug1),
        11 => Some(Figure::Rate),
        12..=19 => Some(Figure::Life { row: n - 11 }),
        20 => Some(Figure::Cou),
        21 => Some(Figure::Coa),
        22 => Some(Figure::Telcon),
        23 => Some(Figure::Avv),
        24 => Some(Figure::Ins),
        25 => Some(Figure::Rac),
        _ => None,
    }
}

impl Figure {
    // What it is called, before its area, class, bracket or row.
    fn name(self) -> &'static str {
        match self {
            Figure::Days => "days of the year",
            Figure::Distribution { .. } => "line 1 (distribution)",
            Figure::Metering { .. } => "line 2 (metering)",
            Figure::Commercial => "line 3 (commercial)",
            Figure::BracketCount => "number of brackets",
            Figure::BracketEnd { .. } => "end of bracket",
            Figure::BracketPrice { .. } => "reference price of bracket",
            Figure::Coefficient { .. } => "coefficient of area",
            Figure::Gs => "GS",
            Figure::Ug1 => "UG1",
            Figure::Rate => "rate of return",
            Figure::Life { .. } => "useful life of asset row",
            Figure::Cou => "cou",
            Figure::Coa => "coa",
            Figure::Telcon => "telcon",
            Figure::Avv => "avv",
            Figure::Ins => "ins",
            Figure::Rac => "rac",
        }
    }
}

impl fmt::Display for Figure {
    fn fmt<W: fmt::Write>(&self, f: &mut fmt::Formatter<W>) -> fmt::Result {
        f.write_str(self.name())?;
        match *self {
            Figure::Distribution { area, class } | Figure::Metering { area, class } => {
                write!(f, ", area {area}, class {class}")
            }
            Figure::BracketEnd { bracket: n }
            | Figure::BracketPrice { bracket: n }
            | Figure::Coefficient { area: n }
            | Figure::Life { row: n } => write!(f, " {n}"),
            _ => Ok(()),
        }
    }
}
