// Marker diagrams: their rows, the ids of nodes, admission, and what an id shows.
#![tactic(auto)]

pub mod admission;
pub mod diagram;
pub mod ids;
pub mod kinds;
pub mod rows;
pub mod views;
