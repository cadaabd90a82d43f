//! Tests by public names of clusters of running nodes, and of what they leave.
#![tactic(auto)]

#[cfg(test)]
mod coming_up;
#[cfg(test)]
mod crews;
#[cfg(test)]
mod exchanges;
#[cfg(test)]
mod expect;
#[cfg(test)]
mod parts;
#[cfg(test)]
mod rings;
#[cfg(test)]
mod stores;
#[cfg(test)]
mod worlds;
