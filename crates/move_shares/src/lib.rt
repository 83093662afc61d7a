// What each atom of a formula adds to the root after a move, by the sets and ports that change: definitions and laws alone.
#![tactic(auto)]
