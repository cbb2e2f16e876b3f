// The colour of each dot of a byte, and what it depends on: definitions and laws only, no code.
#![tactic(auto)]
