//! Tests of statements: sets of nodes, runs, guards, rules, simplified systems.
#![tactic(auto)]

#[cfg(test)]
mod holding;
#[cfg(test)]
mod marking;
#[cfg(test)]
mod running;
#[cfg(test)]
mod simplifying;
#[cfg(test)]
mod systems;
#[cfg(test)]
mod translating;
#[cfg(test)]
mod writing;
