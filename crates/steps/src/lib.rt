// The arithmetic steps of docs/RULES.md, a module for each subject. Each takes any input: where it
// is out of the range stated with the step, the answer tells 4, place 0. Two private modules are no
// steps: `range` has the tests of the ranges, and `root` the root of the precision number.
#![tactic(auto)]

pub mod area;
pub mod azimuth;
pub mod closure;
pub mod course;
pub mod distance;
mod range;
mod root;
pub mod share;
