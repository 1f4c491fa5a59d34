//! Tests of single steps, and of replay.
#![tactic(auto)]

#[cfg(test)]
mod losing;
#[cfg(test)]
mod stepping;
