// What the judge must answer, for every two files (specs/), and what a cost says (proofs/). The code is in `judge`.
#![tactic(auto)]
