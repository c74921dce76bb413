// The calls over numbers and byte slices, which sitankulo_c exports for C. Each reads its arguments, asks one function of another crate,
// tests the room in the lent memory and writes.
// Kept: parameters one by one, also in the private functions that the calls make, and each call once more in sitankulo_c: C calls them so,
// and a crate is a library or a static library. Numbers for states, kinds and answers that are no refusals, as the header has them.
#![tactic(auto)]

mod answer;
mod clear_layout;
pub mod clear_runs;
pub mod clears;
pub mod inspecting;
pub mod lists;
pub mod names;
pub mod records;
pub mod snapshots;
pub mod transactions;
