// Malformed lines in print.
use bookfile::faults::{LineFault, faults};
use bookfile::mark::{Mark, mark_of};
use std::fmt;

/// Writes the malformed lines of a file, up to ten: where each is at fault and what was expected there, and the line with a mark under the word at fault.
pub fn write_malformed<W: fmt::Write>(out: &mut W, file: &str, text: &str) -> fmt::Result {
    for fault in faults(text).iter() {
        if let Some(fault) = fault {
            let row = text.lines().nth(fault.line.saturating_sub(1)).unwrap_or("");
            write_fault(out, file, row, fault)?;
        }
    }
    Ok(())
}

fn write_fault<W: fmt::Write>(
    out: &mut W,
    file: &str,
    row: &str,
    fault: &LineFault,
) -> fmt::Result {
    let LineFault { line, what } = *fault;
    let Mark { before, word } = mark_of(row, what);
    write!(out, "{file}:{line}:{}: {what}", before.saturating_add(1))?;
    if let Some(word) = word {
        write!(out, ", not {word}")?;
    }
    writeln!(out, "\n  {row}")?;
    write_mark(out, row, before, word.unwrap_or(" "))
}

// Marks a word of the line above. A tab before it is a tab here too, so that the mark stands under the word.
fn write_mark<W: fmt::Write>(out: &mut W, row: &str, before: usize, word: &str) -> fmt::Result {
    out.write_str("  ")?;
    for c in row.chars().take(before) {
        out.write_char(if c == '\t' { '\t' } else { ' ' })?;
    }
    for _ in word.chars() {
        out.write_char('^')?;
    }
    writeln!(out)
}
