// The core formula of a text and what the text means: definitions and laws alone. Paper 01, section Plan text.
#![tactic(auto)]
