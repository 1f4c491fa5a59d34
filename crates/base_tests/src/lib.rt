//! Tests of class sets, trees, selectors, and diagrams of two atoms.
#![tactic(auto)]

#[cfg(test)]
mod builders;
#[cfg(test)]
mod diagrams;
#[cfg(test)]
mod losses;
#[cfg(test)]
mod selectors;
#[cfg(test)]
mod sets;
#[cfg(test)]
mod trees;
#[cfg(test)]
mod upward;
