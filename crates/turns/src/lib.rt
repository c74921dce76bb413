// Definitions only: the command lists that a transaction comes to. Its theorems stand in crate `demands`.
#![tactic(auto)]
