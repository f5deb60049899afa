// The theorems over the model of the crate paging: see specs/ for the terms of their statements and proofs/ for the theorems.
#![tactic(auto)]
