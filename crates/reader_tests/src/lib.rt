//! Tests of names, files, sinks, a sheet at its limits, and the lines of a report.
#![tactic(auto)]

#[cfg(test)]
mod edges;
#[cfg(test)]
mod names;
#[cfg(test)]
mod reports;
#[cfg(test)]
mod sheets;
