// Only statements over the definitions of the other crates, and their proofs.
#![tactic(auto)]
