// The three demands of the letter as theorems, a file each: proofs/Demand1, Demand2, Demand3; and of the requests, as proofs/TakenBack (2026-03). No code.
#![tactic(auto)]
