//! What a step of a truncation has come to.
use crate::truncation::Truncation;
use lc_model::Reply;

/// What a step of a truncation has come to.
#[derive(Drop)]
pub enum TruncationStep {
    /// More is to come.
    Continues(Truncation),
    /// It is over, and this is its reply.
    Ends(Reply),
}
