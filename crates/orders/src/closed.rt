// The list of closed companies.
ghost use Rattle.std.specs.Prelude.{◌≤◌, length};
ghost use Rattle.orders.specs.ClosedLists.{Lists, Listed};

use crate::register::Register;
use company::record::Phase;
use limits::MOST_COMPANIES;
use units::refusal::{Reason, Refusal};

impl Register {
    // Enters the closed companies into the list, and answers how many they are.
    fn list_closed(&self, list: &mut [u64]) -> usize
        requires { 16 ≤ length list.old }
        ensures { Lists self.now.companies list.old list.new result }
    {
        let mut count = 0;
        for (place, slot) in self.companies.iter().enumerate() {
            if matches!(slot, Some(company) if company.phase == Phase::Closed) {
                list[count] = place as u64;
                count += 1;
            }
        }
        count
    }

    /// Enters the closed companies into the list, none twice, from its first place on, and answers how many they are. What stands further on is left.
    /// A list of fewer than sixteen places is refused by 4.
    pub fn closed(&self, list: &mut [u64]) -> Result<usize, Refusal>
        ensures { Listed self.now.companies list.old list.new result }
    {
        if list.len() < MOST_COMPANIES {
            return Err(Reason::PastTable.at(0));
        }
        Ok(self.list_closed(list))
    }
}
