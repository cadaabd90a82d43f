//! The area of a segment, and the writes of its pages.
ghost use Rattle.std.specs.Prelude.{◌≡◌, ◌*◌, ◌≤◌, length, vec_len};
ghost use Rattle.std.specs.List.{count_by};
ghost use Rattle.lc_desk.specs.PageState.{AreNamed, is_begun};

use crate::page_state::PageState;
use lc_disk::Area;

/// The area of a segment, and the states of its pages in order. So several pages may be written at once, and none of it
/// takes memory.
#[derive(Drop)]
pub struct Pages<D: Area> {
    pub area: D,
    pub writes: Vec<PageState>,
    /// How many of the writes have begun, and are not over.
    pub begun: usize,
    ghost long: { 2 * 272 * vec_len writes ≤ length (D.now area) },
    ghost named: { AreNamed writes.items },
    ghost counted: { begun ≡ count_by is_begun writes.items },
}

impl<D: Area> Pages<D> {
    /// The area of a segment, whose pages are in these states.
    pub fn new(area: D, writes: Vec<PageState>) -> Pages<D>
        requires long { 2 * 272 * vec_len writes ≤ length (D.now area) }
        requires named { AreNamed writes.items }
        ensures area { result.area ≡ area }
        ensures writes { result.writes ≡ writes }
    {
        let begun = count_begun(writes.as_slice());
        Pages {
            area,
            writes,
            begun,
        }
    }
}

fn count_begun(states: &[PageState]) -> usize
    ensures { result ≡ count_by is_begun states.now }
{
    states.iter().filter(|state| state.is_begun()).count()
}
