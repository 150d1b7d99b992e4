// The evaluations of a diagram: on a host, and with extras alone.
#![tactic(auto)]

pub mod evaluation;
pub mod extras;
pub mod substrings;
