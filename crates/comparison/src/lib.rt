// Two recorded sessions compared: definitions and theorems, no code.
#![tactic(auto)]
