//! Tests of both engines: cells, summaries, closed and folded pages, budgets.
#![tactic(auto)]

#[cfg(test)]
mod answers;
#[cfg(test)]
mod building;
#[cfg(test)]
mod composing;
#[cfg(test)]
mod deep;
#[cfg(test)]
mod diagrams;
#[cfg(test)]
mod examples;
#[cfg(test)]
mod folds;
#[cfg(test)]
mod pages;
#[cfg(test)]
mod rounds;
#[cfg(test)]
mod tables;
