//! The lines of the file that says a store's size.
ghost use Rattle.std.specs.Prelude.{◌≡◌, ◌++◌, ◌∷◌, ◌<◌, ◌^◌, ℕ, List, decimal, IfOk, IfSome, MatchOption, None, Some};
ghost use Rattle.lc_record.specs.declared.geometry.Geometry.{Geometry as Sizes};
ghost use Rattle.lc_folder.specs.SizeText.{IsSameSize, size_file_text};

use lc_record::Geometry;
use std::alloc::{AllocError, Global};
use std::fmt;

/// The lines that say how large a store is, as they are printed: the format, nodes, segments, pages of a segment, and
/// words of a log. This project's own.
#[derive(Drop)]
pub struct SizeText {
    pub geometry: Geometry,
}

impl fmt::Display for SizeText {
    ghost output = { λ text. Some (size_file_text text.geometry) };

    fn fmt<W: fmt::Write>(&self, f: &mut fmt::Formatter<W>) -> fmt::Result {
        let nodes = self.geometry.nodes;
        let segments = self.geometry.segments;
        let pages = self.geometry.pages;
        let words = self.geometry.words;
        write!(
            f,
            "format 1\nnodes {nodes}\nsegments {segments}\npages {pages}\nwords {words}\n"
        )
    }
}

/// The size, with one thread a node, that these lines say; none where they are not to the byte those of a size.
pub(crate) fn size_said(alloc: Global, bytes: &[u8]) -> Result<Option<Geometry>, AllocError>
    ensures said { IfOk result (λ said. IfSome said (λ g. bytes.now ≡ size_file_text g)) }
    ensures threads { IfOk result (λ said. IfSome said (λ g. g.threads ≡ 1)) }
    ensures none { IfOk result (λ said. said ≡ None → (g : Sizes) → bytes.now ≡ size_file_text g → ⊥) }
{
    let Some(geometry) = size_in(bytes) else {
        return Ok(None);
    };
    let text = SizeText { geometry }.to_string(alloc)?;
    if text.as_bytes() == bytes {
        Ok(Some(geometry))
    } else {
        Ok(None)
    }
}

// The size that lines say, which may be spelled otherwise.
fn size_in(bytes: &[u8]) -> Option<Geometry>
    ensures threads { IfSome result (λ g. g.threads ≡ 1) }
    ensures found { (g : Sizes) → bytes.now ≡ size_file_text g → MatchOption result ⊥ (λ found. IsSameSize found g) }
{
    let Ok(text) = str::from_utf8(bytes) else {
        return None;
    };
    let (nodes, text) = number_in(text, "format 1\nnodes ")?;
    let (segments, text) = number_in(text, "segments ")?;
    let (pages, text) = number_in(text, "pages ")?;
    let (words, _) = number_in(text, "words ")?;
    let Ok(nodes) = u16::try_from(nodes) else {
        return None;
    };
    Geometry::new(nodes, 1, segments, pages, words)
}

// The number that follows these words at the front of a text, up to the end of the line, and what comes after that.
fn number_in<'a>(text: &'a str, words: &str) -> Option<(u32, &'a str)>
    ensures { (n : ℕ) (rest : List ℕ) → n < 2 ^ 32 → text.now ≡ words.now ++ (decimal n ++ 10 ∷ rest)
        → MatchOption result ⊥ (λ found. (found.0 ≡ n) × (found.1.now ≡ rest)) }
{
    let (number, rest) = text.strip_prefix(words)?.split_once('\n')?;
    Some((number.parse().ok()?, rest))
}
