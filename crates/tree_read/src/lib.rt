// The test of W that every call begins with, and the view of an index that it opens.
#![tactic(auto)]

pub mod check;
pub mod open;
pub mod sizes;
