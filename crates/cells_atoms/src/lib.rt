// The sums of a change's differences over a formula's atoms, for the choice of a move by ports: definitions and laws alone.
#![tactic(auto)]
