//! Tests by public names of the layers that stand below a store: areas, records, logs, pages, tokens and transactions.
#![tactic(auto)]

#[cfg(test)]
mod expect;
#[cfg(test)]
mod fake_file;
#[cfg(test)]
mod fault_texts;
#[cfg(test)]
mod files;
#[cfg(test)]
mod heap;
#[cfg(test)]
mod logs;
#[cfg(test)]
mod pages;
#[cfg(test)]
mod ranges;
#[cfg(test)]
mod records;
#[cfg(test)]
mod tokens;
#[cfg(test)]
mod transactions;
