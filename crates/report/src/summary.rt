// How many calls were granted and how many refused, in print.
use std::fmt;
use told::summary::{MOST_LINES, Summary};

#[derive(Clone, Copy, Debug)]
pub struct Summed(pub Summary);

impl fmt::Display for Summed {
    fn fmt<W: fmt::Write>(&self, f: &mut fmt::Formatter<W>) -> fmt::Result {
        let (granted, refused) = (self.0.granted, self.0.refused);
        write!(f, "calls: {granted} granted, ")?;
        if refused == 0 {
            return f.write_str("none refused");
        }
        let at = if refused == 1 { "line" } else { "lines" };
        write!(f, "{refused} refused, at {at} ")?;
        write_first_lines(f, &self.0)
    }
}

fn write_first_lines<W: fmt::Write>(f: &mut fmt::Formatter<W>, summary: &Summary) -> fmt::Result {
    for (i, line) in summary.lines.iter().take(summary.refused).enumerate() {
        let mark = if i == 0 { "" } else { ", " };
        write!(f, "{mark}{line}")?;
    }
    if summary.refused > MOST_LINES {
        f.write_str(" and others")?;
    }
    Ok(())
}
