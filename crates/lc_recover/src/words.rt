//! The words of a log that was read.
ghost use Rattle.std.specs.Prelude.{◌≡◌, ◌+◌, ◌*◌, ◌≤◌, ◌∷◌, [], length, vec_capacity};
ghost use Rattle.lc_record.specs.Words.{words_of};

/// How many bytes a word has.
pub(crate) const WORD_BYTES: usize = 8;

/// Fills an empty list that has room for them with the words of these bytes.
pub(crate) fn fill_words(words: &mut Vec<u64>, bytes: &[u8])
    requires empty { words.old.items ≡ [] }
    requires room { length bytes.now ≤ vec_capacity words.old * 8 + 7 }
    ensures { words.new.items ≡ words_of bytes.now }
{
    let mut rest = bytes;
    while rest.len() >= WORD_BYTES {
        let (front, behind) = rest.split_at(WORD_BYTES);
        words.push_reserved(word_of(front));
        rest = behind;
    }
}

// The word of these eight bytes.
fn word_of(bytes: &[u8]) -> u64
    requires { length bytes.now ≡ 8 }
    ensures { words_of bytes.now ≡ result ∷ [] }
{
    let mut word = [0; WORD_BYTES];
    word.copy_from_slice(bytes);
    u64::from_le_bytes(word)
}
