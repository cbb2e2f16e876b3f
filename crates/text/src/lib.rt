// Texts and how they are read: definitions and laws only, no code.
#![tactic(auto)]
