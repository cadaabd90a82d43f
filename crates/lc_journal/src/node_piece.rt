//! What a node of a store is made of.
ghost use Rattle.std.specs.Prelude.{◌≡◌, ℕ, ◌+◌, ◌*◌, ◌<◌, ◌≤◌, ◌^◌, ◌++◌, List, length, map, IfOk};
ghost use Rattle.lc_record.specs.declared.record.Record.{Record};
ghost use Rattle.lc_log.specs.LogText.{IsLogText};
ghost use Rattle.lc_journal.specs.Kept.{closed_record};
ghost use Rattle.lc_rest.specs.Parts.{AreSpelled};
ghost use Rattle.lc_journal.specs.Pieces.{IsNodePiece};

use crate::records::Records;
use lc_disk::Area;
use lc_log::Idle;
use lc_token::KnownClean;
use std::alloc::{AllocError, Global};

/// What a node of a store is made of. It has its log and its round, its records that no reset has dropped, all of them
/// closed, and how many of all its records are stable. It has how clean it has seen the segments too.
#[derive(Drop)]
pub struct NodePiece<D: Area> {
    pub log: Idle<D>,
    pub round: u64,
    pub records: Records,
    pub(crate) stable: u64,
    pub known: KnownClean,
}

impl<D: Area + Drop> NodePiece<D> {
    /// What a node is made of with this log in its round, which knows so much as clean. After so many records that
    /// resets have dropped, fewer than 2^63, it has those of the log and then those that are staged, each as the words
    /// that begin with them. It takes memory for the words.
    pub fn new(
        alloc: Global,
        log: Idle<D>,
        round: u64,
        known: KnownClean,
        dropped: u64,
        stable: &[u64],
        staged: &[u64],
    ) -> Result<NodePiece<D>, AllocError>
        requires few { dropped < 2 ^ 63 }
        ensures log { IfOk result (λ piece. piece.log ≡ log) }
        ensures round { IfOk result (λ piece. piece.round ≡ round) }
        ensures known { IfOk result (λ piece. piece.known ≡ known) }
        ensures records { IfOk result (λ piece. (front behind : List Record) → IsLogText stable.now front
            → IsLogText staged.now behind
            → piece.records ≡ record { before = dropped; records = map closed_record (front ++ behind) }) }
        ensures stable { IfOk result (λ piece. (front : List Record) → IsLogText stable.now front
            → piece.stable ≡ dropped + length front) }
        ensures fits { IfOk result (λ piece. (words : ℕ) (front behind : List Record) → AreSpelled stable.now front
            → AreSpelled staged.now behind
            → log.end ≡ length stable.now → log.end + length staged.now ≤ words
            → length (D.now log.area) ≡ 8 * (words + 1) → round < 2 ^ 48 → IsNodePiece D.Area words piece) }
    {
        let mut records = Records::behind(alloc, dropped);
        records.keep_all(stable)?;
        let count = records.count();
        records.keep_all(staged)?;
        Ok(NodePiece {
            log,
            round,
            records,
            stable: count,
            known,
        })
    }
}
