// The calls for C, each of which is the call of its name in sitankulo: see include/sitankulo.h.
#![tactic(auto)]

pub mod clear_runs;
pub mod clears;
pub mod inspecting;
pub mod lists;
pub mod names;
pub mod snapshots;
pub mod transactions;
