//! Tests by public names of a running node, of committers on it, of services that keep it in order, and of how it ends.
#![tactic(auto)]

#[cfg(test)]
mod commits;
#[cfg(test)]
mod committers;
#[cfg(test)]
mod crowds;
#[cfg(test)]
mod ends;
#[cfg(test)]
mod expect;
#[cfg(test)]
mod failures;
#[cfg(test)]
mod gates;
#[cfg(test)]
mod openings;
#[cfg(test)]
mod outside;
#[cfg(test)]
mod rooms;
#[cfg(test)]
mod services;
#[cfg(test)]
mod stores;
#[cfg(test)]
mod tokens;
