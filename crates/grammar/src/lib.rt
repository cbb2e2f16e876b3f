// What a sheet is and how it is read: definitions and laws only, no code.
#![tactic(auto)]
