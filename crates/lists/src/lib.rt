// Definitions and laws on lists, in specs/. There is no code.
#![tactic(auto)]
