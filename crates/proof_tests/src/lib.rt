//! Tests of proofs that hold, and of the same ones with one fault.
#![tactic(auto)]

#[cfg(test)]
mod building;
#[cfg(test)]
mod long;
#[cfg(test)]
mod rows;
#[cfg(test)]
mod systems;
#[cfg(test)]
mod tests;
