//! Tests of `closest`, `siblings` and `first`, and of answers that are settled by them.
#![tactic(auto)]

#[cfg(test)]
mod building;
#[cfg(test)]
mod checks;
#[cfg(test)]
mod guarding;
#[cfg(test)]
mod proving;
#[cfg(test)]
mod replaying;
#[cfg(test)]
mod selecting;
#[cfg(test)]
mod settling;
