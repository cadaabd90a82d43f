//! A box of a session as C holds it.
ghost use Rattle.std.specs.Prelude.{◌≡◌, true};
ghost use Rattle.lc_c.specs.declared.session.Session.{Session};
ghost use Rattle.lc_c.specs.Handle.{handle_owns, owned_if, session_coded};

use crate::box_parts::BoxParts;
use crate::session::Session;
use std::alloc::Global;
use std::marker::Model;

#[repr(C)]
#[derive(Drop)]
pub struct Handle {
    at: *mut u8,
    pub held: bool,
    alloc: Global,
    pub ghost value: { Session } by { session_coded },
}

impl Model for Handle {
    ghost also_owns = { λ h. owned_if h.held (handle_owns h.alloc h.at h.value) };
}

impl Handle {
    ghost use Rattle.std.specs.Borrow.{sem};
    ghost use Rattle.lc_c.specs.Lent.{LendsSession};

    pub fn of(value: Box<Session>) -> Handle
        ensures held { result.held ≡ true }
        ensures value { result.value ≡ value.value }
    {
        Handle::of_parts(BoxParts::of(value))
    }

    pub fn into_box(self) -> Box<Session>
        requires { self.held ≡ true }
        ensures { result.value ≡ self.value }
    {
        self.into_parts().into_box()
    }

    pub fn is_held(&mut self) -> bool
        ensures { (result ≡ self.old.held) × (self.new ≡ self.old) }
    {
        self.held
    }

    pub fn get_mut(&mut self) -> &mut Session
        requires { self.old.held ≡ true }
        ensures* lent { sem 𝓛 (LendsSession self.entry result) }
        ensures value { result.now ≡ self.old.value }
    {
        unsafe { &mut *(self.at as *mut Session) }
    }

    fn of_parts(parts: BoxParts<Session, Global>) -> Handle
        ensures { (result.held ≡ true) × (result.value ≡ parts.value) }
    {
        let BoxParts { ptr, alloc } = parts;
        Handle {
            at: ptr as *mut u8,
            held: true,
            alloc,
        }
    }

    fn into_parts(self) -> BoxParts<Session, Global>
        requires { self.held ≡ true }
        ensures { result.value ≡ self.value }
    {
        let Handle { at, held: _, alloc } = self;
        BoxParts {
            ptr: at as *mut Session,
            alloc,
        }
    }
}
