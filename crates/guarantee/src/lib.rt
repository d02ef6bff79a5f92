// Demand 3, the claim about any list of calls, in specs/. There is no code.
#![tactic(auto)]
