//! Tokens of segments: each part of a record is applied in the order of its numbers, once; and a log may be reset only
//! where the pages have all that its records say.
#![tactic(auto)]

mod dirty;
mod due;
mod fault;
mod held_parts;
mod hold_back;
mod known_clean;
mod laws;
mod received;
mod reset;
mod token;
mod token_place;
mod unclean;

pub use dirty::dirty_pages;
pub use fault::TokenFault;
pub use hold_back::HoldBack;
pub use known_clean::KnownClean;
pub use laws::{
    any_order, clean_pages, forgets_what_it_kept, known_is_clean, known_numbers, next_numbers,
    same_records,
};
pub use received::Received;
pub use reset::{above, lesser, may_reset, may_reset_kept};
pub use token::Token;
pub use token_place::TokenPlace;
pub use unclean::Unclean;
