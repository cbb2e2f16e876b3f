// What the archive asked for, in one place: theorems about what the contracts allow, no code.
#![tactic(auto)]
