//! How the write of a page stands.
ghost use Rattle.std.specs.Prelude.{◌≡◌};
ghost use Rattle.lc_desk.specs.PageState.{is_begun};

use lc_page::Writing;

/// How the write of a page stands.
#[derive(Drop)]
pub enum PageState {
    /// None is under way.
    AtRest,
    /// It is between two of its six calls.
    UnderWay(Writing),
    /// A call of it failed, and it goes on no more.
    Failed,
}

impl PageState {
    /// Whether a write of the page has begun, and is not over.
    pub fn is_begun(&self) -> bool
        ensures { result ≡ is_begun self.now }
    {
        !matches!(self, PageState::AtRest)
    }
}
