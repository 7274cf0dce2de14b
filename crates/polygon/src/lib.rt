// Exact geometry of a drawing's loops: a loop is a row of the loop table, seen as a polygon. All of it is decided in whole numbers.
// Assumes rows and coordinates in range, as the contracts say.
#![tactic(auto)]

pub mod points;
pub mod rings;
