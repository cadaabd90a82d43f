//! A box of a draft of a transaction as C holds it.
ghost use Rattle.std.specs.Prelude.{◌≡◌, true};
ghost use Rattle.lc_changes.specs.declared.draft.Draft.{Draft};
ghost use Rattle.lc_c.specs.DraftHandle.{handle_owns, owned_if, draft_coded};

use crate::box_parts::BoxParts;
use lc_changes::Draft;
use std::alloc::Global;
use std::marker::Model;

#[repr(C)]
#[derive(Drop)]
pub struct DraftHandle {
    at: *mut u8,
    pub held: bool,
    alloc: Global,
    pub ghost value: { Draft } by { draft_coded },
}

impl Model for DraftHandle {
    ghost also_owns = { λ h. owned_if h.held (handle_owns h.alloc h.at h.value) };
}

impl DraftHandle {
    ghost use Rattle.std.specs.Borrow.{sem};
    ghost use Rattle.lc_c.specs.LentDraft.{LendsDraft};

    pub fn of(value: Box<Draft>) -> DraftHandle
        ensures held { result.held ≡ true }
        ensures value { result.value ≡ value.value }
    {
        DraftHandle::of_parts(BoxParts::of(value))
    }

    pub fn into_box(self) -> Box<Draft>
        requires { self.held ≡ true }
        ensures { result.value ≡ self.value }
    {
        self.into_parts().into_box()
    }

    pub fn is_held(&mut self) -> bool
        ensures { (result ≡ self.old.held) × (self.new ≡ self.old) }
    {
        self.held
    }

    pub fn get_mut(&mut self) -> &mut Draft
        requires { self.old.held ≡ true }
        ensures* lent { sem 𝓛 (LendsDraft self.entry result) }
        ensures value { result.now ≡ self.old.value }
    {
        unsafe { &mut *(self.at as *mut Draft) }
    }

    fn of_parts(parts: BoxParts<Draft, Global>) -> DraftHandle
        ensures { (result.held ≡ true) × (result.value ≡ parts.value) }
    {
        let BoxParts { ptr, alloc } = parts;
        DraftHandle {
            at: ptr as *mut u8,
            held: true,
            alloc,
        }
    }

    fn into_parts(self) -> BoxParts<Draft, Global>
        requires { self.held ≡ true }
        ensures { result.value ≡ self.value }
    {
        let DraftHandle { at, held: _, alloc } = self;
        BoxParts {
            ptr: at as *mut Draft,
            alloc,
        }
    }
}
