// The figures of the book's management rule, as they are filed.
use units::amounts::PointPrice;

#[derive(Clone, Copy, Debug)]
pub struct RuleFigures {
    /// Whether the rule is the area-wide one; otherwise it is the municipal one.
    pub wide: bool,
    /// The operating prices by size and density, the small sizes first.
    pub prices: [PointPrice; 9],
}
