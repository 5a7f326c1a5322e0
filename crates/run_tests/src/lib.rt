//! Tests of the top call: whole runs, from arguments and a text in memory to what a sink in memory holds
//! (`docs/ARCHITECTURE.md`, "Tests").
#![tactic(auto)]

#[cfg(test)]
mod biases;
#[cfg(test)]
mod blocks;
#[cfg(test)]
mod calls;
#[cfg(test)]
mod checks;
#[cfg(test)]
mod due;
#[cfg(test)]
mod each_byte;
#[cfg(test)]
mod leads;
#[cfg(test)]
mod made;
#[cfg(test)]
mod makes;
#[cfg(test)]
mod meets;
#[cfg(test)]
mod monitors;
#[cfg(test)]
mod outcomes;
#[cfg(test)]
mod reports;
#[cfg(test)]
mod rows;
#[cfg(test)]
mod settings;
#[cfg(test)]
mod told;
#[cfg(test)]
mod turns;
