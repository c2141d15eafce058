// Demand 2: both round trips, of a tape that `writer::write` has written a record at a time. It is
// said of what `write` and `tape::take` promise, so no function stands here.

#![tactic(auto)]
