//! A node's log, with what is staged for it.
ghost use Rattle.lc_stage.specs.Seats.{IsSeatOf, IsFlusherOf};
ghost use Rattle.std.specs.Prelude.{◌≡◌, length, ◌≤◌};
ghost use Rattle.lc_token.specs.KnownClean.{Sees};

use crate::Ended;
use crate::log_state::LogState;
use lc_disk::Area;
use lc_lock::Keyed;
use lc_record::Group;
use lc_stage::{CommitSeat, FlushSeat, Stage};
use lc_token::{KnownClean, Token};
use std::marker::Model;

/// A node's log: its flusher, its device, how many records it has published, and what is known clean of the segments.
/// It has the words of its stable records, which are what the flusher took in this round or, once it is halted, the
/// front of that. For its peers it has those of the records of the rounds that have ended since it was opened, from the
/// first that somebody may still want.
#[derive(Drop)]
pub struct LogSide<D: Area> {
    pub(crate) flusher: FlushSeat,
    /// A committer's seat, by which the tail is loaded.
    pub(crate) probe: CommitSeat,
    pub(crate) log: LogState<D>,
    pub(crate) group: Group,
    pub(crate) stable: Vec<u64>,
    pub(crate) ended: Ended,
    /// How many records it has published since it was opened.
    pub(crate) count: u64,
    pub(crate) round: u64,
    pub(crate) known: KnownClean,
}

impl<D: Area> Model for LogSide<D> {
    ghost use Rattle.lc_log_side.specs.LogView.{LogView};
    ghost use Rattle.lc_log_side.specs.LogSide.{log_view, IsLogSide};

    ghost Value = { LogView D };

    ghost view = { log_view D.Area };

    ghost invariant = { IsLogSide D.Area };
}

impl<D: Area + Drop> Keyed<Stage> for LogSide<D> {
    ghost fits = { λ stage log. IsFlusherOf stage log.flusher × IsSeatOf stage log.probe };
}

impl<D: Area + Drop> LogSide<D> {
    /// How many words its stable records take.
    pub fn stable_words(&self) -> usize
        ensures { result ≡ length self.now.stable }
    {
        self.stable.len()
    }

    /// The round that the log is in.
    pub fn round(&self) -> u64
        ensures { result ≡ self.now.round }
    {
        self.round
    }
}

impl<D: Area + Drop> LogSide<D> {
    /// Takes in what a token calls clean. Its segment is from 1 to 16. It takes no memory.
    pub(crate) fn see(&mut self, token: &Token)
        requires first { 1 ≤ token.now.segment }
        requires last { token.now.segment ≤ 16 }
        ensures sees { Sees self.old.known token.now self.new.known }
        ensures same { self.new ≡ record self.old { known = self.new.known } }
    {
        self.known.see(token);
    }
}
