//! Tests of journals and reports: their answers, cycles, classes and counts (`docs/ARCHITECTURE.md`, "Tests").
#![tactic(auto)]

#[cfg(test)]
mod checks;
#[cfg(test)]
mod classes;
#[cfg(test)]
mod compare;
#[cfg(test)]
mod counts;
#[cfg(test)]
mod cycles;
