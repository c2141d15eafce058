// Demand 3: how far a corner may stand from the unrounded one. It is said of the words that the
// desk's `traverse` writes, so no function stands here.

#![tactic(auto)]
