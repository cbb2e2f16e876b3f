// How promises are written: definitions and laws only, no code.
#![tactic(auto)]
