//! Tests of scripts and of what the program answers: what no contract says.
#![tactic(auto)]

#[cfg(test)]
mod expect;
#[cfg(test)]
mod fault_tests;
#[cfg(test)]
mod folder_tests;
#[cfg(test)]
mod stream_tests;
