// The tariff table, the management rule and the opening as they are filed, from the figures that are given.
ghost use Rattle.std.specs.Prelude.{◌≡◌, ◌<◌};
ghost use Rattle.bookfile.specs.declared.table.TheConstants.{SLOTS};
ghost use Rattle.bookfile.specs.Filed.{figure, bracket, filed, rule_of, opening_of};

use super::{
    BRACKETS, CAPACITY, COEFFICIENTS, DISTRIBUTION, LIVES, MANAGEMENT, METERING, OPENING, Table,
};
use crate::numbers::{change, whole};
use crate::opening::OpeningFigures;
use crate::rule::RuleFigures;
use journal::journal::MOST_ENTRIES;
use std::array;
use tariff::figures::{Bracket, Coefficient, Life, Rate, TariffFigures};
use units::amounts::{PointPrice, VolumePrice};

impl Table {
    /// The table's figures; one that is not given is 0.
    pub(crate) fn filed(&self) -> TariffFigures
        ensures { result ≡ filed self.now }
    {
        TariffFigures {
            days: self.figure(0),
            distribution: array::from_fn(|i| PointPrice(self.figure(DISTRIBUTION + i))),
            metering: array::from_fn(|i| PointPrice(self.figure(METERING + i))),
            commercial: PointPrice(self.figure(1)),
            count: self.brackets,
            brackets: array::from_fn(|i| self.bracket(i)),
            coefficients: array::from_fn(|i| Coefficient(self.figure(COEFFICIENTS + i))),
            gs: VolumePrice(self.figure(2)),
            ug1: VolumePrice(self.figure(3)),
            rate: Rate(self.figure(4)),
            lives: array::from_fn(|i| Life(self.figure(LIVES + i))),
            cou: PointPrice(self.figure(5)),
            coa: PointPrice(self.figure(6)),
            telcon: PointPrice(self.figure(7)),
            avv: PointPrice(self.figure(8)),
            ins: PointPrice(self.figure(9)),
            rac: PointPrice(self.figure(10)),
        }
    }

    /// The figures of the management rule; one that is not given is 0.
    pub(crate) fn rule(&self) -> RuleFigures
        ensures { result ≡ rule_of self.now }
    {
        RuleFigures {
            wide: self.figure(MANAGEMENT) == 1,
            prices: array::from_fn(|i| PointPrice(self.figure(MANAGEMENT + 1 + i))),
        }
    }

    /// How the book is opened: the journal has the most places where its capacity is not given.
    pub(crate) fn opening(&self) -> OpeningFigures
        ensures { result ≡ opening_of self.now }
    {
        OpeningFigures {
            number: self.figure(OPENING),
            sum: change(self.slots[OPENING + 1]),
            capacity: self.slots[CAPACITY].map_or(MOST_ENTRIES as u64, |n| whole(Some(n))),
        }
    }

    fn figure(&self, slot: usize) -> u64
        requires { slot < SLOTS }
        ensures { result ≡ figure self.now slot }
    {
        whole(self.slots[slot])
    }

    fn bracket(&self, i: usize) -> Bracket
        requires { i < 8 }
        ensures { result ≡ bracket self.now i }
    {
        let slot = BRACKETS + 2 * i;
        Bracket {
            end: self.figure(slot),
            reference: VolumePrice(self.figure(slot + 1)),
        }
    }
}
