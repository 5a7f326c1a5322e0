//! Tests of the runtime: what two threads of one heap answer, log and leave, call by call, and what two workers log
//! that enter and leave one object (`docs/ARCHITECTURE.md`, "Tests").
#![tactic(auto)]

#[cfg(test)]
mod asked;
#[cfg(test)]
mod biased;
#[cfg(test)]
mod calls;
#[cfg(test)]
mod compare;
#[cfg(test)]
mod deflated;
#[cfg(test)]
mod dumped;
#[cfg(test)]
mod hashed;
#[cfg(test)]
mod lab;
#[cfg(test)]
mod last;
#[cfg(test)]
mod made;
#[cfg(test)]
mod stacked;
#[cfg(test)]
mod waiting;
#[cfg(test)]
mod workers;
