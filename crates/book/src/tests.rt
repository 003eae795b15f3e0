// A year in small.
use crate::book::Book;
use calls::enrolling::Enrolment;
use journal::own_journal::OwnJournal;
use management::municipal::Municipal;
use std::test::Fail;
use tables::rows::{LocalityRow, PointRow};
use tariff::supply::Change;
use units::amounts::{Cents, PointPrice};
use units::refusal::Reason;

// A closing books what its company is due, and the next one what was corrected since.
#[test]
fn year_is_closed_and_corrected(rt: HostRuntime) -> Result<(), Fail> {
    let rule = Municipal::try_from([PointPrice(30_000_000); 9])?;
    let mut book = Book::new(OwnJournal::new(), rule);
    let (mut localities, mut points) = ([LocalityRow::default(); 1], [PointRow::default(); 1]);
    let year = Change {
        volume: 500,
        days: 73,
    };
    let late = Change {
        volume: 0,
        days: 73,
    };
    let place = Enrolment {
        locality: 0,
        class: 1,
        domestic: 0,
    };
    book.open(&sample::tariff()?, 7, 0, &mut localities, &mut points)?;
    book.register(0, sample::terms())?;
    book.file(&mut localities, 0, sample::locality())?;
    book.enrol(&localities, &mut points, 0, place)?;
    let first = book.bill(&localities, &mut points, 0, year)?;
    assert_eq!(rt; first.charge.tariff, Cents(4_112));
    book.bill(&localities, &mut points, 0, late)?;
    assert_eq!(rt; book.close(&localities, &points, 0), Ok(Cents(136_178)));
    assert_eq!(rt;
        book.close(&localities, &points, 0),
        Err(Reason::CompanyClosed.at(0))
    );
    book.reopen(0)?;
    assert_eq!(rt; book.close(&localities, &points, 0), Ok(Cents(0)));
    Ok(())
}
