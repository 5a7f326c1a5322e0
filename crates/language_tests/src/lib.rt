//! Tests of texts, of the program or the refusal that each has, and of programs that are made
//! (`docs/ARCHITECTURE.md`, "Tests").
#![tactic(auto)]

#[cfg(test)]
mod limits;
#[cfg(test)]
mod made;
#[cfg(test)]
mod programs;
#[cfg(test)]
mod refusals;
#[cfg(test)]
mod texts;
#[cfg(test)]
mod writing;
