// What each class and kind requires of a record's places: whether a record is valid, and whether
// what it names exists.
#![tactic(auto)]

pub mod exist;
pub mod fit;
