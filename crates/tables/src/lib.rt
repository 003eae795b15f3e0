// The tables that are lent to the book: their rows, and the records that rows make. No price of a tariff is known here.
#![tactic(auto)]

pub mod blank;
pub mod filing;
pub mod lengths;
pub mod locality;
pub mod lookup;
pub mod point;
pub mod rows;
pub mod service;
pub mod standing;
pub mod state;
