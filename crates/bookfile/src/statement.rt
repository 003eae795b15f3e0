// The statements of a book file: their keywords, the names of their figures, and what numbers those may be.
ghost use Rattle.std.specs.Prelude.{◌≡◌, ◌≤◌, ◌&&◌, map, length, int_le};
ghost use Rattle.bookfile.specs.declared.statement.TheConstants.{MOST_FIGURES};
ghost use Rattle.bookfile.specs.Grammar.{ReadsKeyword, names_of};
ghost use Rattle.bookfile.specs.Syntax.{kind_of, needed, least, most};

use crate::malformed::Malformed;
use std::fmt;
use std::str::FromStr;

#[derive(Clone, Copy, Debug, PartialEq, Eq)]
pub enum Statement {
    Tariff,
    Distribution,
    Metering,
    Bracket,
    Coefficient,
    Life,
    Management,
    Opening,
    Journal,
    Register,
    File,
    Enrol,
    Bill,
    Draw,
    Cancel,
    Send,
    Confirm,
    Bounce,
    Close,
    Reopen,
    Cost,
    Component,
    Served,
    Revenue,
    Balance,
    Account,
}

/// What number a figure may be.
#[derive(Clone, Copy, Debug, PartialEq, Eq)]
pub enum Kind {
    /// A whole number of 64 bits.
    Whole,
    /// A whole number of 8 bits.
    Byte,
    /// A whole number of 64 bits with its sign.
    Change,
    /// An area or an asset row.
    OneOfEight,
    /// A service: distribution or metering.
    OneOrTwo,
    /// A yes or a no.
    ZeroOrOne,
}

/// A figure of a statement, by its place among the statement's names.
#[derive(Clone, Copy, Debug, PartialEq, Eq)]
pub struct Field {
    pub statement: Statement,
    pub place: usize,
}

/// The most figures that a statement has.
pub(crate) const MOST_FIGURES: usize = 46;

static TARIFF: [&str; 11] = [
    "days",
    "commercial",
    "gs",
    "ug1",
    "rate",
    "cou",
    "coa",
    "telcon",
    "avv",
    "ins",
    "rac",
];

static PRICES: [&str; 4] = ["area", "class1", "class2", "class3"];

static BRACKET: [&str; 2] = ["end", "price"];

static COEFFICIENT: [&str; 2] = ["area", "value"];

static LIFE: [&str; 2] = ["row", "years"];

static MANAGEMENT: [&str; 10] = [
    "areawide", "small1", "small2", "small3", "medium1", "medium2", "medium3", "large1", "large2",
    "large3",
];

static OPENING: [&str; 2] = ["number", "sum"];

static JOURNAL: [&str; 1] = ["capacity"];

static REGISTER: [&str; 8] = [
    "company",
    "advance",
    "instalments",
    "verification",
    "central",
    "points",
    "density",
    "award",
];

static FILE: [&str; MOST_FIGURES] = [
    "locality",
    "company",
    "state",
    "area",
    "expected",
    "smart",
    "gross1",
    "net1",
    "works1",
    "contributions1",
    "remaining1",
    "gross2",
    "net2",
    "works2",
    "contributions2",
    "remaining2",
    "gross3",
    "net3",
    "works3",
    "contributions3",
    "remaining3",
    "gross4",
    "net4",
    "works4",
    "contributions4",
    "remaining4",
    "gross5",
    "net5",
    "works5",
    "contributions5",
    "remaining5",
    "gross6",
    "net6",
    "works6",
    "contributions6",
    "remaining6",
    "gross7",
    "net7",
    "works7",
    "contributions7",
    "remaining7",
    "gross8",
    "net8",
    "works8",
    "contributions8",
    "remaining8",
];

static ENROL: [&str; 4] = ["point", "locality", "class", "domestic"];

static BILL: [&str; 3] = ["point", "volume", "days"];

static ORDER: [&str; 3] = ["book", "company", "instalment"];

static SERVICE: [&str; 2] = ["locality", "service"];

static COMPANY: [&str; 1] = ["company"];

static NOTHING: [&str; 0] = [];

impl FromStr for Statement {
    type Err = Malformed;

    ghost from_str_gives = { ReadsKeyword };

    fn from_str(word: &str) -> Result<Statement, Malformed> {
        match word {
            "tariff" => Ok(Statement::Tariff),
            "distribution" => Ok(Statement::Distribution),
            "metering" => Ok(Statement::Metering),
            "bracket" => Ok(Statement::Bracket),
            "coefficient" => Ok(Statement::Coefficient),
            "life" => Ok(Statement::Life),
            "management" => Ok(Statement::Management),
            "opening" => Ok(Statement::Opening),
            "journal" => Ok(Statement::Journal),
            "register" => Ok(Statement::Register),
            "file" => Ok(Statement::File),
            "enrol" => Ok(Statement::Enrol),
            "bill" => Ok(Statement::Bill),
            "draw" => Ok(Statement::Draw),
            "cancel" => Ok(Statement::Cancel),
            "send" => Ok(Statement::Send),
            "confirm" => Ok(Statement::Confirm),
            "bounce" => Ok(Statement::Bounce),
            "close" => Ok(Statement::Close),
            "reopen" => Ok(Statement::Reopen),
            "cost" => Ok(Statement::Cost),
            "component" => Ok(Statement::Component),
            "served" => Ok(Statement::Served),
            "revenue" => Ok(Statement::Revenue),
            "balance" => Ok(Statement::Balance),
            "account" => Ok(Statement::Account),
            _ => Err(Malformed::Keyword),
        }
    }
}

impl Statement {
    /// The names of the statement's figures.
    pub(crate) fn names(self) -> &'static [&'static str]
        ensures few { length result.now ≤ MOST_FIGURES }
        ensures names { map (λ n. n.now) result.now ≡ names_of self }
    {
        match self {
            Statement::Tariff => &TARIFF,
            Statement::Distribution => &PRICES,
            Statement::Metering => &PRICES,
            Statement::Bracket => &BRACKET,
            Statement::Coefficient => &COEFFICIENT,
            Statement::Life => &LIFE,
            Statement::Management => &MANAGEMENT,
            Statement::Opening => &OPENING,
            Statement::Journal => &JOURNAL,
            Statement::Register => &REGISTER,
            Statement::File => &FILE,
            Statement::Enrol => &ENROL,
            Statement::Bill => &BILL,
            Statement::Draw
            | Statement::Close
            | Statement::Reopen
            | Statement::Served
            | Statement::Revenue
            | Statement::Balance => &COMPANY,
            Statement::Cancel | Statement::Send | Statement::Confirm | Statement::Bounce => &ORDER,
            Statement::Cost | Statement::Component => &SERVICE,
            Statement::Account => &NOTHING,
        }
    }

    /// How such a statement may look.
    pub(crate) fn example(self) -> &'static str {
        match self {
            Statement::Tariff =>
                "tariff days=365 commercial=1825000 gs=100000 ug1=40000 rate=560 cou=0 coa=0 telcon=0 avv=0 ins=0 rac=0",
            Statement::Distribution =>
                "distribution area=1 class1=36500000 class2=36500000 class3=36500000",
            Statement::Metering =>
                "metering area=1 class1=18250000 class2=18250000 class3=18250000",
            Statement::Bracket => "bracket end=120 price=0",
            Statement::Coefficient => "coefficient area=1 value=1000000",
            Statement::Life => "life row=3 years=20",
            Statement::Management =>
                "management areawide=0 small1=31000000 small2=27000000 small3=24000000 medium1=26000000 medium2=23000000 medium3=21000000 large1=22000000 large2=20000000 large3=18000000",
            Statement::Opening => "opening number=7 sum=0",
            Statement::Journal => "journal capacity=1048576",
            Statement::Register =>
                "register company=0 advance=100000 instalments=3 verification=0 central=1000 points=100 density=1 award=1",
            Statement::File =>
                "file locality=0 company=0 state=1 area=1 expected=100 smart=40 gross3=1000000 net3=600000",
            Statement::Enrol => "enrol point=0 locality=0 class=1 domestic=0",
            Statement::Bill => "bill point=0 volume=500 days=73",
            Statement::Draw => "draw company=0",
            Statement::Cancel => "cancel book=7 company=0 instalment=1",
            Statement::Send => "send book=7 company=0 instalment=1",
            Statement::Confirm => "confirm book=7 company=0 instalment=1",
            Statement::Bounce => "bounce book=7 company=0 instalment=1",
            Statement::Close => "close company=0",
            Statement::Reopen => "reopen company=0",
            Statement::Cost => "cost locality=0 service=1",
            Statement::Component => "component locality=0 service=1",
            Statement::Served => "served company=0",
            Statement::Revenue => "revenue company=0",
            Statement::Balance => "balance company=0",
            Statement::Account => "account",
        }
    }
}

impl Field {
    /// What number the figure may be.
    pub(crate) fn kind(self) -> Kind
        ensures { result ≡ kind_of self.statement self.place }
    {
        match (self.statement, self.place) {
            (Statement::Management, 0) => Kind::ZeroOrOne,
            (Statement::Opening | Statement::Register, 1) => Kind::Change,
            (Statement::Bill, place) if place != 0 => Kind::Change,
            (Statement::Distribution | Statement::Metering, 0) => Kind::OneOfEight,
            (Statement::Coefficient | Statement::Life, 0) => Kind::OneOfEight,
            (Statement::Cancel | Statement::Send | Statement::Confirm | Statement::Bounce, 2) =>
                Kind::Byte,
            (Statement::Cost | Statement::Component, 1) => Kind::OneOrTwo,
            _ => Kind::Whole,
        }
    }

    /// Whether the figure has to be given: all but those of the tariff, of the management rule, of the opening and of asset rows do.
    pub(crate) fn is_needed(self) -> bool
        ensures { result ≡ needed self.statement self.place }
    {
        match self.statement {
            Statement::Tariff | Statement::Management | Statement::Opening | Statement::Account =>
                false,
            Statement::Distribution | Statement::Metering | Statement::Enrol => self.place < 4,
            Statement::Bracket
            | Statement::Coefficient
            | Statement::Life
            | Statement::Cost
            | Statement::Component => self.place < 2,
            Statement::Register => self.place < 8,
            Statement::File => self.place < 6,
            Statement::Bill
            | Statement::Cancel
            | Statement::Send
            | Statement::Confirm
            | Statement::Bounce => self.place < 3,
            Statement::Journal
            | Statement::Draw
            | Statement::Close
            | Statement::Reopen
            | Statement::Served
            | Statement::Revenue
            | Statement::Balance => self.place < 1,
        }
    }
}

impl Field {
    /// The figure's name.
    pub(crate) fn name(self) -> Option<&'static str> {
        self.statement.names().get(self.place).copied()
    }
}

impl fmt::Display for Field {
    fn fmt<W: fmt::Write>(&self, f: &mut fmt::Formatter<W>) -> fmt::Result {
        f.write_str(self.name().unwrap_or(""))
    }
}

impl Kind {
    // The least and the most number of this kind.
    fn bounds(self) -> (i128, i128)
        ensures { (result.0 ≡ least self) × (result.1 ≡ most self) }
    {
        match self {
            Kind::Whole => (0, u64::MAX as i128),
            Kind::Byte => (0, 255),
            Kind::Change => (i64::MIN as i128, i64::MAX as i128),
            Kind::OneOfEight => (1, 8),
            Kind::OneOrTwo => (1, 2),
            Kind::ZeroOrOne => (0, 1),
        }
    }

    /// Whether a number is of this kind.
    pub(crate) fn allows(self, n: i128) -> bool
        ensures { result ≡ (int_le (least self) n && int_le n (most self)) }
    {
        let (least, most) = self.bounds();
        (least..=most).contains(&n)
    }
}

impl fmt::Display for Kind {
    fn fmt<W: fmt::Write>(&self, f: &mut fmt::Formatter<W>) -> fmt::Result {
        let (least, most) = self.bounds();
        write!(f, "a plain whole number from {least} to {most}")
    }
}
