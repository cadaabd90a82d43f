//! Tests by public names of what threads share: the stage with its rounds, locks and lines.
#![tactic(auto)]

#[cfg(test)]
mod expect;
#[cfg(test)]
mod lines;
#[cfg(test)]
mod locks;
#[cfg(test)]
mod rounds;
#[cfg(test)]
mod staging;
