// The figures of the worked year.
ghost use Rattle.worked.specs.Figures.{Worked};

/// The definitions give the figures of the worked year, as a book answers them call by call.
pub fn worked_year() -> u8
    ensures { Worked }
{
    0
}
