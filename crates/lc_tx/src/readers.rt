//! Which threads read a segment.
ghost use Rattle.std.specs.Prelude.{◌≡◌, ◌<◌, ◌↔◌, ℕ, not, false, ◌&&◌, ◌||◌, ◌==◌, IsTrue, IfSome, None, length};
ghost use Rattle.std.specs.Prelude.{slice_index_or};
ghost use Rattle.lc_tx.specs.Readers.{some_reads};

/// The most threads of a node.
pub(crate) const THREADS: usize = 16;

/// Threads that read a segment side by side: at least one, of the 16 of a node, numbered from 0. This project's own.
#[derive(Clone, Copy)]
pub struct Readers {
    reads: [bool; THREADS],
    ghost all_threads: { length reads ≡ 16 },
    ghost some: { IsTrue (some_reads reads) },
}

impl Readers {
    /// One thread alone.
    pub(crate) fn one(thread: u16) -> Readers
        requires { thread < 16 }
        ensures { (other : ℕ) → slice_index_or result.reads other false ≡ (thread == other) }
    {
        let mut reads = [false; THREADS];
        reads[thread as usize] = true;
        Readers { reads }
    }

    /// Whether a thread is among them.
    pub fn contains(&self, thread: u16) -> bool
        ensures { result ≡ slice_index_or self.now.reads thread false }
    {
        self.reads.get(thread as usize).copied().unwrap_or(false)
    }

    /// These, and a thread.
    pub(crate) fn with(self, thread: u16) -> Readers
        requires { thread < 16 }
        ensures { (other : ℕ) → slice_index_or result.reads other false
            ≡ ((thread == other) || slice_index_or self.reads other false) }
    {
        let mut reads = self.reads;
        reads[thread as usize] = true;
        Readers { reads }
    }

    /// These without a thread, if there are others.
    pub(crate) fn without(self, thread: u16) -> Option<Readers>
        ensures others { IfSome result (λ readers. (other : ℕ) → slice_index_or readers.reads other false
            ≡ (not (thread == other) && slice_index_or self.reads other false)) }
        ensures none { result ≡ None → (other : ℕ)
            → (not (thread == other) && slice_index_or self.reads other false) ≡ false }
    {
        let mut reads = self.reads;
        let place = thread as usize;
        if place < THREADS {
            reads[place] = false;
        }
        if !reads.contains(&true) {
            return None;
        }
        Some(Readers { reads })
    }
}
