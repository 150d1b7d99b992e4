// Worked cases of the unit: how rows are rewritten, and tests of values, ranges and diagrams.
#![tactic(auto)]

pub mod rewriting;
#[cfg(test)]
mod tests;
