// Only definitions, in specs/, which the other crates' contracts and theorems cite.
#![tactic(auto)]
