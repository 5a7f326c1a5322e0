//! Tests of the words of a heap, of a heap as it begins, and of the operations on them (`docs/ARCHITECTURE.md`,
//! "Tests").
#![tactic(auto)]

#[cfg(test)]
mod acts;
#[cfg(test)]
mod biases;
#[cfg(test)]
mod compare;
#[cfg(test)]
mod last;
#[cfg(test)]
mod opening;
#[cfg(test)]
mod races;
#[cfg(test)]
mod records;
#[cfg(test)]
mod safepoints;
#[cfg(test)]
mod start;
#[cfg(test)]
mod walks;
