//! Tests of records (`docs/ARCHITECTURE.md`, "Tests").
#![tactic(auto)]

#[cfg(test)]
mod lines;
#[cfg(test)]
mod order;
