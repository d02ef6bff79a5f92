// Reading a log, whatever is done with its records. Definitions and theorems, no code.
#![tactic(auto)]
