//! How many there are of each thing in a store.
ghost use Rattle.std.specs.Prelude.{◌≡◌, ◌≤◌, ◌↔◌, ◌+◌, ◌*◌, IsSome, IfSome};

/// The bytes of a page.
pub const PAGE: u32 = 256;

/// How many nodes, threads of each node, segments, pages of each segment and words of each log there are.
#[derive(Clone, Copy, PartialEq, Eq)]
pub struct Geometry {
    /// 1 to 8, numbered from 0.
    pub nodes: u16,
    /// 1 to 16 of each node, numbered from 0.
    pub threads: u16,
    /// 1 to 16, numbered from 1.
    pub segments: u32,
    /// 1 to 1024 of each segment, numbered from 0, of 256 bytes each.
    pub pages: u32,
    /// 64 to 4096 of each log, of 8 bytes each.
    pub words: u32,
    ghost some_nodes: { 1 ≤ nodes },
    ghost few_nodes: { nodes ≤ 8 },
    ghost some_threads: { 1 ≤ threads },
    ghost few_threads: { threads ≤ 16 },
    ghost some_segments: { 1 ≤ segments },
    ghost few_segments: { segments ≤ 16 },
    ghost some_pages: { 1 ≤ pages },
    ghost few_pages: { pages ≤ 1024 },
    ghost some_words: { 64 ≤ words },
    ghost few_words: { words ≤ 4096 },
}

impl Geometry {
    ghost use Rattle.lc_record.specs.Geometry.{IsGeometry, HasNumbers, segment_len};

    /// These numbers, or None exactly where one of them is outside its range.
    pub fn new(nodes: u16, threads: u16, segments: u32, pages: u32, words: u32) -> Option<Geometry>
        ensures value { IfSome result (λ g. HasNumbers g nodes threads segments pages words) }
        ensures within { IsSome result ↔ IsGeometry nodes threads segments pages words }
    {
        if nodes < 1 || nodes > 8 || threads < 1 || threads > 16 {
            return None;
        }
        if segments < 1 || segments > 16 || pages < 1 || pages > 1024 {
            return None;
        }
        if words < 64 || words > 4096 {
            return None;
        }
        Some(Geometry {
            nodes,
            threads,
            segments,
            pages,
            words,
        })
    }

    /// The bytes of a log's area: its words, and one word more after them.
    pub fn log_len(&self) -> usize
        ensures { result ≡ 8 * (self.now.words + 1) }
    {
        8 * (self.words as usize + 1)
    }

    /// The bytes of a segment.
    pub fn segment_len(&self) -> usize
        ensures { result ≡ segment_len self.now }
    {
        self.pages as usize * PAGE as usize
    }
}
