//! Tests of answers by both engines, and at the limits of a system.
#![tactic(auto)]

#[cfg(test)]
mod checks;
#[cfg(test)]
mod more;
#[cfg(test)]
mod reading;
#[cfg(test)]
mod rows;
#[cfg(test)]
mod tests;
#[cfg(test)]
mod texts;
