// Hosts, and reporters of warnings.
#![tactic(auto)]

pub mod hosts;
pub mod keeping;
pub mod lending;
pub mod overlays;
pub mod records;
pub mod reporters;
pub mod warnings;
