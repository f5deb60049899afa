// Demand 3 of document 01 as one claim about whole lists of calls, and the marked cases: see specs/ and proofs/.
#![tactic(auto)]
