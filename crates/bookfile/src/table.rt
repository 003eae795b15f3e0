// The tariff table, the management rule and the opening of a book file, as its statements give them.
mod filed;
mod puts;

/// The figures that are given so far, each in its slot: the single ones, then distribution and metering by area
/// and class, the coefficients, the lives, the brackets, each its end and its price, the management rule, and the opening. One array holds them all, so
/// that one loop puts the figures of every statement; the number of brackets says where the next one goes.
#[derive(Clone, Copy, Debug)]
pub struct Table {
    slots: [Option<i128>; SLOTS],
    brackets: usize,
}

const DISTRIBUTION: usize = 11;

const METERING: usize = 35;

const COEFFICIENTS: usize = 59;

const LIVES: usize = 67;

const BRACKETS: usize = 75;

const MANAGEMENT: usize = 91;

const OPENING: usize = 101;

const CAPACITY: usize = 103;

const SLOTS: usize = 104;
