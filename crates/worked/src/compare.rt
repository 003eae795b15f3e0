// A table of figures, compared line by line.
use std::fmt::Display;
use std::fs;

/// A count of compared figures; each that differs is printed.
#[derive(Clone, Copy)]
pub struct Tally<'a> {
    rt: &'a HostRuntime,
    line: u64,
    agree: u64,
    differ: u64,
}

impl<'a> Tally<'a> {
    /// Counts a figure, and prints it where it is not the expected one.
    pub fn compare<T: Copy + PartialEq + Display>(
        &mut self,
        what: &str,
        found: T,
        expected: T,
    ) -> anyhow::Result<()> {
        if found == expected {
            self.agree = self.agree.saturating_add(1);
            return Ok(());
        }
        self.differ = self.differ.saturating_add(1);
        println!(self.rt;
            "  line {}: {what} is {found}, expected {expected}",
            self.line
        )?;
        Ok(())
    }
}

/// Compares the lines of a table, but for its comments, and prints how many figures agree.
pub(crate) fn compare_table<F: FnMut(&mut Tally<'_>, &str) -> anyhow::Result<()>>(
    rt: &HostRuntime,
    name: &str,
    mut compare_line: F,
) -> anyhow::Result<()>
    requires { F.IsAlwaysCallable compare_line }
{
    let text = fs::read_to_string(rt, name)?;
    let mut tally = Tally {
        rt,
        line: 0,
        agree: 0,
        differ: 0,
    };
    for (number, line) in (1u64..).zip(text.as_str().lines()) {
        if !line.starts_with('#') {
            tally.line = number;
            compare_line(&mut tally, line)?;
        }
    }
    println!(rt;
        "{name}: {} figures agree, {} differ",
        tally.agree, tally.differ
    )?;
    Ok(())
}
