// The figures of a tariff table as they are filed: plain numbers, not yet held to their limits.
use units::amounts::{PointPrice, VolumePrice};

/// An area's coefficient, in millionths.
#[derive(Clone, Copy, Debug, Default, PartialEq, Eq)]
pub struct Coefficient(pub u64);

/// The rate of return on capital, in ten-thousandths.
#[derive(Clone, Copy, Debug, PartialEq, Eq)]
pub struct Rate(pub u64);

/// The useful life of an asset, in years; 0 where it does not depreciate.
#[derive(Clone, Copy, Debug, Default, PartialEq, Eq)]
pub struct Life(pub u64);

/// A consumption bracket: its end in Smc, and its price before the area's coefficient.
#[derive(Clone, Copy, Debug, PartialEq, Eq)]
pub struct Bracket {
    pub end: u64,
    pub reference: VolumePrice,
}

#[derive(Clone, Copy, Debug, PartialEq, Eq)]
pub struct TariffFigures {
    /// The days of the year.
    pub days: u64,
    /// Line 1: the prices of area 1 by class, then those of area 2, and so on.
    pub distribution: [PointPrice; 24],
    /// Line 2, in the same order.
    pub metering: [PointPrice; 24],
    /// Line 3: one price for all.
    pub commercial: PointPrice,
    /// The number of brackets; the places past it are not read. It stands beside the list, since it is filed too, and may be wrong: figure 51.
    pub count: usize,
    pub brackets: [Bracket; 8],
    /// By area.
    pub coefficients: [Coefficient; 8],
    pub gs: VolumePrice,
    pub ug1: VolumePrice,
    pub rate: Rate,
    /// By asset row.
    pub lives: [Life; 8],
    pub cou: PointPrice,
    pub coa: PointPrice,
    pub telcon: PointPrice,
    pub avv: PointPrice,
    pub ins: PointPrice,
    pub rac: PointPrice,
}
