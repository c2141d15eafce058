// The desk for programs in other languages: every public step, the record writer, the reading, the
// traverse and the sheet as C functions on numbers and lists. Each is thin over the proved
// function, and promises the same definitions. What is told comes back as the refusal's number, 0
// for none, and through the caller's own numbers; nothing is allocated or kept.
//
// Kept: names, numbers and pointers are C's: a function for each step and each kind of record, and
// `place`, `next` and `used` one by one.
#![tactic(auto)]

// The figures that a traverse is told with: n, W, both closures, the precision number, the doubled
// area, and 1 for a loop. The header has the same name, and specs/Face.antt has `figure_count`.
pub const FIGURES: usize = 7;

mod arithmetic;
mod tapes;
mod tell;
mod writing;
