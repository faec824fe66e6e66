// C functions over the leaves, for the comparison with the Rust in oracle/leaves and for nothing else.
// Each hands the leaf's `requires` on as its own. No proof reaches the caller there: its tests keep to it.
#![tactic(auto)]

pub mod aux;
pub mod cells;
pub mod table;
