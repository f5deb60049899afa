// Marking with priorities beside the layers (document 02, request 09; source document 001, Algorithm 1), as a model: specs/ has the rule for any
// priorities and the priorities RDM, proofs/ what follows from them.
#![tactic(auto)]
