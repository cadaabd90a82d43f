//! What a segment of a store is made of.
ghost use Rattle.std.specs.Prelude.{◌≡◌};
ghost use Rattle.lc_desk.specs.Pieces.{bytes_of, number_of};

use lc_rest::Holder;
use lc_token::Token;

/// What a segment of a store is made of, beside its token and its area. It has where the token is, and the bytes that
/// all its records make, which are those at the node of its token. It has the number up to which it is applied
/// elsewhere too, with the bytes that the records up to that number make.
#[derive(Drop)]
pub struct SegmentPiece {
    pub holder: Holder,
    pub bytes: Vec<u8>,
    pub stable: u64,
    pub stable_bytes: Vec<u8>,
}

impl SegmentPiece {
    /// The number up to which the segment is applied where this token stands, or none.
    pub(crate) fn number(&self, standing: &Option<Token>) -> u64
        ensures { result ≡ number_of self.now standing.now }
    {
        match standing {
            Some(token) => token.seq(),
            None => self.stable,
        }
    }

    /// The bytes of the segment where this token stands, or none.
    pub fn bytes(&self, standing: &Option<Token>) -> &[u8]
        ensures { result.now ≡ bytes_of self.now standing.now }
    {
        match standing {
            Some(_) => self.bytes.as_slice(),
            None => self.stable_bytes.as_slice(),
        }
    }
}
