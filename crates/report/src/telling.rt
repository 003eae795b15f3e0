// What is told of a call, in print.
use crate::answer::write_granted;
use crate::call::About;
use crate::refused::write_refused;
use crate::year::write_revenue;
use booklaws::answer::Granted;
use calls::call::Call;
use std::fmt;
use tables::rows::LocalityRow;
use told::saying::Said;

/// Writes what is told of a call. A filing's row stands in the list of filings; a refused call is told with its file and its line.
pub fn write_said<W: fmt::Write>(
    out: &mut W,
    file: &str,
    filings: &[LocalityRow],
    call: Call,
    said: &Said,
) -> fmt::Result {
    match *said {
        Said::Granted {
            granted: Granted::Revenue(revenue),
            ..
        } => {
            writeln!(out, "{}:", About(call))?;
            write_revenue(out, &revenue)
        }
        Said::Granted { granted, again } => {
            write!(out, "{}: ", About(call))?;
            write_granted(out, filings, call, granted, again)
        }
        Said::Refused(refused) => write_refused(out, file, &refused),
    }
}
