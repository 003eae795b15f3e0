// What a company's points are charged, how many of them it served, and the revenue that is recognised to it.
#![tactic(auto)]

pub mod book_tables;
pub mod company_costs;
pub mod parts;
pub mod served;
