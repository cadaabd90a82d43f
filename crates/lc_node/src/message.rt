//! What nodes send one another.
/// A published record of the sender, with its number from 1 and its words, or a token. Log-based coherency: Feeley et
/// al., OSDI 1994; the token in the same line is this project's own.
#[derive(Drop)]
pub enum Message<P> {
    /// The record of this number, from 1, and its words.
    Record { number: u64, words: Vec<u64> },
    /// A token.
    Token(P),
}
