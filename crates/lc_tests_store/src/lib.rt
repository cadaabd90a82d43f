//! Tests of the store of all nodes, and of what a recovery tells: what no contract says.
#![tactic(auto)]

#[cfg(test)]
mod call_tests;
#[cfg(test)]
mod events;
#[cfg(test)]
mod expect;
#[cfg(test)]
mod growth_tests;
#[cfg(test)]
mod hostile_tests;
#[cfg(test)]
mod telling_tests;
#[cfg(test)]
mod world_tests;
