// How an answer is handed to other programs: its number, place and values in lent words, a volume in a lent double, a drawing in two lent
// lists. Assumes nothing.
#![tactic(auto)]

pub mod lent;
pub mod volume;
pub mod words;
