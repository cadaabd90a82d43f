//! What each step on the table tells.
ghost use Rattle.lc_lock.specs.TicketQueue.{came, drew, began, took, gave};
ghost use Rattle.lc_lock.specs.Bells.{listened, rang};

use crate::Keyed;
use crate::turn::LockView;
use atomic_table::Play;

pub(crate) struct Come;

impl<T, K> Play<Option<T>, LockView<K>> for Come {
    ghost then = { came };
}

pub(crate) struct Draw;

impl<T, K> Play<Option<T>, LockView<K>> for Draw {
    ghost then = { drew };
}

pub(crate) struct Begin;

impl<T, K> Play<Option<T>, LockView<K>> for Begin {
    ghost then = { began };
}

pub(crate) struct Take;

impl<T: Keyed<K>, K> Play<Option<T>, LockView<K>> for Take {
    ghost then = { took T.fits };
}

pub(crate) struct Serve;

impl<T, K> Play<Option<T>, LockView<K>> for Serve {
    ghost then = { gave };
}

pub(crate) struct Listen;

impl<T, K> Play<Option<T>, LockView<K>> for Listen {
    ghost then = { listened };
}

pub(crate) struct Ring;

impl<T, K> Play<Option<T>, LockView<K>> for Ring {
    ghost then = { rang };
}
