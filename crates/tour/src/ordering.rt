// The orders of a book, and what another book answers to them.
use crate::keeper::Keeper;
use lines::Lines;
use tariff::table::Tariff;

pub fn tour<'a>(
    lines: &mut Lines<'_>,
    book: &mut Keeper<'a>,
    other: &mut Keeper<'a>,
    tariff: &Tariff,
) {
    out(lines, book);
    straying(lines, book, other, tariff);
    book.pay(lines, 0);
}

// A place past the sixteen, a company that is not registered, and a second order and a closing while an order is out.
fn out(lines: &mut Lines<'_>, book: &mut Keeper<'_>) {
    book.pay(lines, 16);
    book.pay(lines, 2);
    if let Some(drawn) = book.draw(lines, 0) {
        book.draw_again(lines, &drawn);
        book.close_early(lines, &drawn);
        book.take_back(lines, drawn);
    }
}

// An order at another book: one that is not open, one in which the company is not registered, and one that did not draw it.
fn straying<'a>(
    lines: &mut Lines<'_>,
    book: &mut Keeper<'a>,
    other: &mut Keeper<'a>,
    tariff: &Tariff,
) {
    book.stray(lines, other, 0);
    other.open(lines, tariff, 8, 0);
    book.stray(lines, other, 0);
    other.register(lines, 0, sample::terms());
    book.stray(lines, other, 0);
}
