// A recorded session: its records, and the lines that its replay prints. Definitions and theorems, no code.
#![tactic(auto)]
