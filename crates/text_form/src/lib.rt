// The text of a plan, as the writer writes it: definitions and laws alone. Paper 02, request 2026-02.
#![tactic(auto)]
