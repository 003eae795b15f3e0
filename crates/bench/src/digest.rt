// One number of many figures, in their order.
use journal::entry::Entry;
use tariff::bill::{Amounts, Bill, Charge};

#[derive(Clone, Copy, Default)]
pub struct Digest(pub i128);

impl Digest {
    fn add(&mut self, figure: i128) {
        self.0 = self.0.wrapping_mul(31).wrapping_add(figure);
    }

    pub fn add_entry(&mut self, entry: &Entry) {
        for figure in [
            i128::from(entry.kind.number()),
            i128::from(entry.company),
            i128::from(entry.place),
            i128::from(entry.volume),
            i128::from(entry.days),
            entry.amount.0,
            entry.ug1.0,
            entry.other.0,
        ] {
            self.add(figure);
        }
    }

    pub fn add_bill(&mut self, bill: &Bill) {
        self.add(i128::from(bill.volume));
        self.add(i128::from(bill.days));
        self.add_amounts(&bill.before);
        self.add_amounts(&bill.after);
        self.add_charge(&bill.charge);
    }

    fn add_amounts(&mut self, lines: &Amounts) {
        for cents in [
            lines.distribution,
            lines.metering,
            lines.commercial,
            lines.variable,
            lines.gs,
            lines.ug1,
        ] {
            self.add(i128::from(cents));
        }
    }

    fn add_charge(&mut self, lines: &Charge) {
        for cents in [
            lines.distribution,
            lines.metering,
            lines.commercial,
            lines.variable,
            lines.gs,
            lines.ug1,
            lines.tariff,
            lines.components,
        ] {
            self.add(cents.0);
        }
    }
}
