// The numbers of a line of a table.
use anyhow::{Context, anyhow};
use std::alloc::Global;
use std::num::ParseIntError;
use std::str::FromStr;
use std::vec;

/// Numbers that are taken one after the other.
#[derive(Drop)]
pub struct Numbers<N: Drop> {
    rest: vec::IntoIter<N>,
    is_short: bool,
}

impl<N: Copy + Default + Drop + FromStr<Err = ParseIntError>> Numbers<N> {
    /// The numbers of a line, which holds nothing else.
    pub fn of(heap: Global, line: &str) -> anyhow::Result<Numbers<N>> {
        let mut list = Vec::new(heap);
        for word in line.split_whitespace() {
            list.push(word.parse::<N>()?).ok().context("no memory")?;
        }
        Ok(Numbers {
            rest: list.into_iter(),
            is_short: false,
        })
    }

    /// The next number. Past the last it is 0, so that what is wrong with the numbers before is told first.
    pub fn take(&mut self) -> N {
        match self.rest.next() {
            Some(number) => number,
            None => {
                self.is_short = true;
                N::default()
            }
        }
    }

    /// An error unless each number was taken, and no more.
    pub fn finish(&mut self) -> anyhow::Result<()> {
        if self.is_short || self.rest.next().is_some() {
            return Err(anyhow!("a line of a table has too few numbers or too many"));
        }
        Ok(())
    }
}
