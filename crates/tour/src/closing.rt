// Closing and reopening: the worked year closed, corrected and closed again, a second company, and a journal that is full.
use crate::keeper::Keeper;
use company::figures::TermsFigures;
use lines::Lines;
use tables::rows::PointRow;

pub fn tour(lines: &mut Lines<'_>, book: &mut Keeper<'_>, too_many: &[PointRow]) {
    refusing(lines, book, too_many);
    closing(lines, book);
    closed(lines, book);
    closing_again(lines, book);
    second_company(lines, book);
    listing(lines, book);
    all_days(lines, book);
    full_journal(lines, book);
}

// A table too long, a place past the sixteen, a company that is not registered, and one that is open.
fn refusing(lines: &mut Lines<'_>, book: &mut Keeper<'_>, too_many: &[PointRow]) {
    book.close_with(lines, too_many);
    book.close(lines, 16);
    book.close(lines, 2);
    book.reopen(lines, 16);
    book.reopen(lines, 2);
    book.reopen(lines, 0);
}

// What is due before and after a closing.
fn closing(lines: &mut Lines<'_>, book: &mut Keeper<'_>) {
    book.ask_balance(lines, 0);
    book.ask_account(lines, &book.points);
    book.close(lines, 0);
    book.ask_balance(lines, 0);
    book.ask_account(lines, &book.points);
}

// A closed company refuses by 9 what would alter its year.
fn closed(lines: &mut Lines<'_>, book: &mut Keeper<'_>) {
    book.file(lines, 0, sample::locality());
    book.enrol(lines, 1, 0, 1);
    book.bill(lines, 0, -20, 0);
    book.pay(lines, 0);
    book.close(lines, 0);
}

// A correction after reopening: the second closing books what came to be due since.
fn closing_again(lines: &mut Lines<'_>, book: &mut Keeper<'_>) {
    book.reopen(lines, 0);
    book.bill(lines, 0, -20, 0);
    book.close(lines, 0);
    book.ask_account(lines, &book.points);
}

// A company that pays in, in one instalment; then it has paid all.
fn second_company(lines: &mut Lines<'_>, book: &mut Keeper<'_>) {
    let paying_in = TermsFigures {
        advance: -100_000,
        instalments: 1,
        ..sample::terms()
    };
    book.register(lines, 1, paying_in);
    book.pay(lines, 1);
    book.pay(lines, 1);
    book.ask_account(lines, &book.points);
}

// A list too short, and one with a place more than there are companies, before and after the second company is closed.
fn listing(lines: &mut Lines<'_>, book: &mut Keeper<'_>) {
    let mut list = [99; 17];
    book.list_closed(lines, &mut list[..15]);
    book.list_closed(lines, &mut list);
    book.close(lines, 1);
    book.list_closed(lines, &mut list);
    book.ask_account(lines, &book.points);
}

// A bill up to the last day of the year, and one past it.
fn all_days(lines: &mut Lines<'_>, book: &mut Keeper<'_>) {
    book.reopen(lines, 0);
    book.enrol(lines, 1, 0, 1);
    book.bill(lines, 1, 0, 366);
    book.bill(lines, 1, 0, 365);
    book.ask_balance(lines, 0);
}

// What needs room in a full journal: an order that cannot be paid is taken back, and a company that cannot be closed stays open.
fn full_journal(lines: &mut Lines<'_>, book: &mut Keeper<'_>) {
    book.fill(lines, 0);
    book.bill(lines, 0, 0, 0);
    book.pay(lines, 0);
    book.close(lines, 0);
    book.reopen(lines, 0);
    book.reopen(lines, 1);
}
