//! What ties the value of a lock to what stands beside the lock.

/// A value that may fit a key. Whoever gets it from a lock knows that it fits the lock's key, beyond what its type says
/// of it. The key exists for contracts alone.
pub trait Keyed<K> {
    /// Which values fit which key.
    ghost fits: { K → Self → Type 0 };
}
