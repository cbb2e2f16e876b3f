// What the PNG file of a frame with its border is: definitions and laws only, no code.
#![tactic(auto)]
