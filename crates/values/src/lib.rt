// The values of a marker diagram: releases, texts, names, keys, the order of values, and refusals.
#![tactic(auto)]

pub mod faults;
pub mod keys;
pub mod orders;
pub mod releases;
pub mod stored;
pub mod texts;
