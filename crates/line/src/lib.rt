// The line of a receiver: the frame, the transition table, the calls on a reader and demand 3, as definitions and theorems.
// It has no code of its own: reader and writer are proved against it.
#![tactic(auto)]
