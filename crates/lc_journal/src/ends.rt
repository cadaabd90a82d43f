//! How a journal begins, and how it ends: what it is made of, and what it gives back.
ghost use Rattle.std.specs.Prelude.{◌≡◌, ◌≢◌, ◌+◌, ◌*◌, ◌%◌, true, false, [], Some, length, slice_index, ℕ, ◌<◌, None};
ghost use Rattle.std.specs.Prelude.{Err, IfOk, slice_index_or};
ghost use Rattle.lc_journal.specs.Pieces.{IsMadeJournal, IsNodePiece};
ghost use Rattle.lc_record.specs.declared.geometry.Geometry.{Geometry};
ghost use Rattle.lc_journal.specs.Blank.{IsBlankJournal};
ghost use Rattle.lc_journal.specs.Log.{Stands, area_of, is_idle, is_failed};
ghost use Rattle.lc_model.specs.Machine.{halting};
ghost use Rattle.lc_model.specs.State.{Setting, State};
ghost use Rattle.lc_journal.specs.Follows.{FitsJournal};
ghost use Rattle.lc_settled.specs.Numbers.{Numbers};
ghost use Rattle.lc_journal.specs.Records.{closed_from};
ghost use Rattle.lc_journal.specs.LogWords.{IsLogRead, IsRead, StandsOn, has_failed};
ghost use Rattle.lc_journal.specs.declared.show_fault.ShowFault.TheVariants.{Unknown};

use crate::journal::Journal;
use crate::log::Log;
use crate::node_piece::NodePiece;
use crate::show_fault::ShowFault;
use lc_disk::Area;
use lc_log::Idle;
use lc_record::Geometry;
use lc_token::KnownClean;
use std::alloc::Global;
use std::mem;

impl<D: Area + Drop> Journal<D> {
    /// The log and the records are those of a node's piece: the journal begins at what is dropped, and what is stable
    /// was taken and is acknowledged. What the piece knows as clean is handed back. It takes no memory.
    pub fn adopt(&mut self, piece: NodePiece<D>) -> KnownClean
        requires piece { IsNodePiece D.Area self.old.words piece }
        ensures made { IsMadeJournal D.Area piece self.new }
        ensures known { result ≡ piece.known }
        ensures room { self.new.group.room ≡ self.old.group.room }
    {
        let NodePiece {
            log,
            round,
            records,
            stable,
            known,
        } = piece;
        let dropped = records.dropped_count();
        self.log = Log::Idle(log);
        self.records = records;
        self.dropped = dropped;
        self.trimmed = dropped;
        self.taken = stable;
        self.acked = stable;
        self.round = round;
        known
    }

    /// The log is that of this area, which begins with no open gate, and has no record. It takes no memory.
    pub fn open(&mut self, area: D)
        requires len { length (D.now area) ≡ 8 * (self.old.group.room + 1) }
        requires dropped { self.old.dropped ≡ 0 }
        requires acked { self.old.acked ≡ 0 }
        ensures area { area_of D.Area self.new.log ≡ Some area }
        ensures log { (D.honest area ≡ true → slice_index (D.now area) 0 % 256 ≢ 165)
            → (D.honest area ≡ true → D.dirty area 0 ≡ false)
            → Stands D.Area self.new.log 0 [] [] }
        ensures works { is_idle D.Area self.new.log ≡ true }
        ensures blank { (g : Geometry) → IsBlankJournal D.Area g self.old → IsBlankJournal D.Area g self.new }
    {
        self.log = Log::Idle(Idle { area, end: 0 });
    }

    /// Its node is halted: its log goes on no more. It makes no call.
    pub fn give_up(&mut self)
        ensures halts { (m : Setting) (node : ℕ) (s : State) (x : Numbers) → FitsJournal D.Area m node self.old s x
            → FitsJournal D.Area m node self.new (halting s node) x }
        ensures failed { is_failed D.Area self.new.log ≡ true }
        ensures area { area_of D.Area self.new.log ≡ area_of D.Area self.old.log }
        ensures words { self.new.words ≡ self.old.words }
        ensures round { self.new.round ≡ self.old.round }
    {
        let log = mem::replace(&mut self.log, Log::Taken);
        self.log = log.give_up();
    }

    /// How many records are closed and not acknowledged.
    pub fn unacknowledged(&self) -> u64
        ensures { result ≡ closed_from self.now.acked self.now.records }
    {
        self.records.closed_from(self.acked)
    }
}

impl<D: Area> Log<D> {
    /// Its area, where it is not taken out.
    pub fn into_area(self) -> Option<D>
        ensures { result ≡ area_of D.Area self }
    {
        match self {
            Log::Idle(log) => Some(log.area),
            Log::Written(log) => Some(log.area),
            Log::Synced(log) => Some(log.area),
            Log::Opened(log) => Some(log.area),
            Log::Sealed(log) => Some(log.area),
            Log::Closing(log) => Some(log.area),
            Log::Emptied(log) => Some(log.area),
            Log::Failed(log) => Some(log.area),
            Log::Torn(log) => Some(log.area),
            Log::Taken => None,
        }
    }

    /// All bytes of its area.
    pub fn bytes(&mut self, alloc: Global) -> Result<Vec<u8>, ShowFault>
        ensures keeps { StandsOn D.Area self.old self.new }
        ensures unknown { area_of D.Area self.old ≡ None → (result ≡ Err Unknown) × (area_of D.Area self.new ≡ None) }
        ensures read { (area : D) → area_of D.Area self.old ≡ Some area
            → (result ≢ Err Unknown) × IsLogRead D.Area area self.old self.new (has_failed result) }
        ensures bytes { IfOk result (λ bytes. (area : D) → area_of D.Area self.old ≡ Some area
            → D.honest area ≡ true → (bytes.items ≡ D.now area) × ((k : ℕ) → slice_index_or (D.now area) k 0 < 256)) }
    {
        match self {
            Log::Idle(log) => area_bytes(&mut log.area, alloc),
            Log::Written(log) => area_bytes(&mut log.area, alloc),
            Log::Synced(log) => area_bytes(&mut log.area, alloc),
            Log::Opened(log) => area_bytes(&mut log.area, alloc),
            Log::Sealed(log) => area_bytes(&mut log.area, alloc),
            Log::Closing(log) => area_bytes(&mut log.area, alloc),
            Log::Emptied(log) => area_bytes(&mut log.area, alloc),
            Log::Failed(log) => area_bytes(&mut log.area, alloc),
            Log::Torn(log) => area_bytes(&mut log.area, alloc),
            Log::Taken => Err(ShowFault::Unknown),
        }
    }
}

// All bytes of an area.
fn area_bytes<D: Area>(area: &mut D, alloc: Global) -> Result<Vec<u8>, ShowFault>
    ensures known { result ≢ Err Unknown }
    ensures read { IsRead D.Area area.old area.new (has_failed result) }
    ensures bytes { IfOk result (λ bytes. D.honest area.old ≡ true
        → (bytes.items ≡ D.now area.old) × ((k : ℕ) → slice_index_or (D.now area.old) k 0 < 256)) }
{
    let mut bytes = vec![in alloc; 0; area.len()]?;
    area.read(0, bytes.as_mut_slice())?;
    Ok(bytes)
}
