// The rules of document 01 as definitions, in specs/, and theorems about them, in proofs/. There is no code.
#![tactic(auto)]
