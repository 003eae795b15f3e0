// A book before it is open, and then up to the figures of the worked year: opening, registering, filing, enrolling, billing and asking.
use crate::keeper::Keeper;
use company::figures::TermsFigures;
use lines::Lines;
use tables::rows::{LocalityRow, PointRow};
use tariff::table::Tariff;

pub fn tour(
    lines: &mut Lines<'_>,
    book: &mut Keeper<'_>,
    tariff: &Tariff,
    too_many: &mut [PointRow],
) {
    not_open(lines, book);
    opening(lines, book, tariff, too_many);
    registering(lines, book);
    filing(lines, book);
    enrolling(lines, book);
    billing(lines, book);
    asking(lines, book, too_many);
}

// A book that is not open refuses everything by 2.
fn not_open(lines: &mut Lines<'_>, book: &mut Keeper<'_>) {
    book.register(lines, 0, sample::terms());
    book.file(lines, 0, sample::locality());
    book.enrol(lines, 0, 0, 1);
    book.bill(lines, 0, 500, 73);
    book.pay(lines, 0);
    book.close(lines, 0);
    book.reopen(lines, 0);
    book.ask_locality(lines, 0);
    book.ask_company(lines, 0);
    book.ask_account(lines, &book.points);
    book.list_closed(lines, &mut [0; 16]);
}

// A table too long, a number and a sum beyond their limits, and a book that is open.
fn opening(
    lines: &mut Lines<'_>,
    book: &mut Keeper<'_>,
    tariff: &Tariff,
    too_many: &mut [PointRow],
) {
    book.open_with(lines, tariff, too_many);
    book.open(lines, tariff, 65_536, 1_000_000);
    book.open(lines, tariff, 7, -1_000_000_000_001);
    book.open(lines, tariff, 7, 1_000_000);
    book.open(lines, tariff, 7, 1_000_000);
}

// A place past the sixteen, thirteen instalments, and a place that is taken.
fn registering(lines: &mut Lines<'_>, book: &mut Keeper<'_>) {
    let thirteen = TermsFigures {
        instalments: 13,
        ..sample::terms()
    };
    book.register(lines, 16, sample::terms());
    book.register(lines, 0, thirteen);
    book.register(lines, 0, sample::terms());
    book.register(lines, 0, sample::terms());
}

// The locality of the worked year, in an area.
fn in_area(area: u64) -> LocalityRow {
    LocalityRow {
        area,
        ..sample::locality()
    }
}

// A place past the table, a company that is not registered, an area beyond its limit, and another area than on record.
fn filing(lines: &mut Lines<'_>, book: &mut Keeper<'_>) {
    let foreign = LocalityRow {
        company: 2,
        ..sample::locality()
    };
    book.file(lines, 2, sample::locality());
    book.file(lines, 0, foreign);
    book.file(lines, 0, in_area(9));
    book.file(lines, 0, in_area(1));
    book.file(lines, 0, in_area(2));
}

// A place past the table, a blank locality, a class beyond its limit, and a place that is taken.
fn enrolling(lines: &mut Lines<'_>, book: &mut Keeper<'_>) {
    book.enrol(lines, 2, 0, 1);
    book.enrol(lines, 0, 1, 1);
    book.enrol(lines, 0, 0, 4);
    book.enrol(lines, 0, 0, 1);
    book.enrol(lines, 0, 0, 1);
}

// A place past the table, a blank point, a volume and days that would leave their range, and the bills of the worked year.
fn billing(lines: &mut Lines<'_>, book: &mut Keeper<'_>) {
    book.bill(lines, 2, 0, 0);
    book.bill(lines, 1, 0, 0);
    book.bill(lines, 0, -1, 0);
    book.bill(lines, 0, 0, 366);
    book.bill(lines, 0, 500, 73);
    book.bill(lines, 0, 0, 73);
}

// The figures of the worked year, places past their tables, places where nothing stands, and a locality without expected points.
fn asking(lines: &mut Lines<'_>, book: &mut Keeper<'_>, too_many: &[PointRow]) {
    book.ask_locality(lines, 0);
    book.ask_company(lines, 0);
    book.ask_account(lines, &book.points);
    book.ask_locality(lines, 2);
    book.ask_company(lines, 16);
    book.ask_account(lines, too_many);
    book.ask_locality(lines, 1);
    book.ask_company(lines, 2);
    let empty = LocalityRow {
        state: 1,
        area: 1,
        ..LocalityRow::default()
    };
    book.file(lines, 1, empty);
    book.ask_locality(lines, 1);
}
