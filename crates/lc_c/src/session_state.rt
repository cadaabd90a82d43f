//! How far a session is.
use crate::mirror_area::MirrorArea;
use lc_core::{Refusal, World};
use lc_record::Geometry;

/// How far a session is.
#[derive(Drop)]
pub(crate) enum SessionState {
    /// The areas that were added so far, in the order of the store.
    Gathering {
        geometry: Geometry,
        areas: Vec<MirrorArea>,
    },
    /// The store, down or up.
    Open(World<MirrorArea>),
    /// It is given up: a file has failed, or the areas did not fit.
    Over,
}

impl SessionState {
    ghost use Rattle.std.specs.Prelude.{◌≡◌};
    ghost use Rattle.lc_c.specs.SessionState.{refusal_of};

    /// Why nothing is asked of a store that is not open.
    pub(crate) fn refusal(&self) -> Refusal
        ensures { result ≡ refusal_of self.now }
    {
        match self {
            SessionState::Over => Refusal::DeviceFault,
            _ => Refusal::Down,
        }
    }
}
