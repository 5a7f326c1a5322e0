//! Tests of programs with blocks (`docs/ARCHITECTURE.md`, "Tests"). The code is of one that counts to two under a
//! monitor and of one that makes an object in each pass of a loop, with just enough fuel and with one less.
#![tactic(auto)]

#[cfg(test)]
mod code;
#[cfg(test)]
mod counting;
#[cfg(test)]
mod fuel;
#[cfg(test)]
mod limits;
#[cfg(test)]
mod making;
#[cfg(test)]
mod reading;
#[cfg(test)]
mod refusals;
#[cfg(test)]
mod texts;
#[cfg(test)]
mod units;
#[cfg(test)]
mod writing;
