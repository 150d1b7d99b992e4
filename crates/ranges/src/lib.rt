// Ranges on a line of values: bounds, edges, which values an edge contains, and whether edges cover the line.
#![tactic(auto)]

pub mod cover;
pub mod edges;
pub mod points;
