//! New lines.
ghost use Rattle.std.specs.Prelude.{◌≡◌, [], IfOk};
ghost use Rattle.lc_line.specs.Ends.{sent_on, taken_from, line_to, line_from};

use crate::pass_view::{InOrder, PassView, Roles};
use crate::{RecvEnd, SendEnd};
use crossbeam_channel::bounded_with;
use std::alloc::{AllocError, Global};

/// How many messages may be on their way on a line.
pub const ROOM: usize = 64;

/// A line on which nothing was sent. All the memory that it will ever ask for is asked for here, and it fails only
/// where there is none.
pub fn open_line<T: Drop>(alloc: Global) -> Result<(SendEnd<T>, RecvEnd<T>), AllocError>
    ensures line { IfOk result (λ ends. line_from ends.1 ≡ line_to ends.0) }
    ensures sent { IfOk result (λ ends. sent_on ends.0 ≡ []) }
    ensures taken { IfOk result (λ ends. taken_from ends.1 ≡ []) }
{
    let (to, from, mut pass) = bounded_with::<T, PassView<T>, InOrder, Global>(alloc, ROOM)?;
    let other = to.another::<Roles>(&mut pass);
    Ok((SendEnd { to, pass }, RecvEnd { from, pass: other }))
}
