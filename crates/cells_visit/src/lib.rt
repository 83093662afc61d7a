// What one visit of a walk over the touched cells asks, gives and writes, for both walks: definitions and laws alone.
#![tactic(auto)]
