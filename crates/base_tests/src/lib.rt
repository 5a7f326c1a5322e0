//! Tests of the crates that stand on none, and of streams (`docs/ARCHITECTURE.md`, "Tests").
#![tactic(auto)]

#[cfg(test)]
mod arguments;
#[cfg(test)]
mod compare;
#[cfg(test)]
mod heap_words;
#[cfg(test)]
mod monitors;
#[cfg(test)]
mod policy;
#[cfg(test)]
mod streams;
