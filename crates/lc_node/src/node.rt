//! A running node.
ghost use Rattle.std.specs.Prelude.{◌≡◌, ◌+◌, ◌≤◌, ℕ, true, Some, slice_get, vec_len};
ghost use Rattle.lc_lock.specs.declared.ticket_lock.TicketLock.{TicketLock as Keeps};
ghost use Rattle.lc_lock.specs.Loans.{key_of};
ghost use Rattle.lc_segments.specs.SegView.{SegView};

use crate::halting::Halting;
use crate::room_turn::RoomTurn;
use lc_disk::Area;
use lc_lock::TicketLock;
use lc_log_side::LogSide;
use lc_record::Geometry;
use lc_segments::BoxedSide;
use lc_stage::Stage;
use std::sync::atomic::AtomicIn;

/// A running node: the geometry of its store, its number, from 0, which its records name, and its stage. A lock stands
/// round its log, and one round each of its segments, at most 16, from segment 1 on. By another one threads make room
/// in a full log one after another. It knows whether it is halted, and whether it is the only one, so that no peer
/// wants its records. The store of a node that is the only one has one node, whatever it was opened from.
#[derive(Drop)]
pub struct Node<D: Area + Drop> {
    pub(crate) geometry: Geometry,
    pub(crate) number: u16,
    pub(crate) stage: Stage,
    pub(crate) log: TicketLock<LogSide<D>, Stage>,
    pub(crate) segments: Vec<TicketLock<BoxedSide<D>, u32>>,
    pub(crate) room_turns: TicketLock<RoomTurn, ()>,
    /// Not 0 once a call of a device has failed.
    pub(crate) halted: AtomicIn<Halting<D>>,
    pub(crate) is_alone: bool,
    ghost numbered: { number ≤ 7 },
    ghost alone: { is_alone ≡ true → (number ≡ 0) × (geometry.nodes ≡ 1) },
    ghost one_stage: { (key_of log).table.shared.table_id ≡ stage.table.shared.table_id },
    ghost in_order: { (place : ℕ) (lock : Keeps (SegView D) ℕ) → slice_get segments.items place ≡ Some lock
        → key_of lock ≡ place + 1 },
    ghost few: { vec_len segments ≤ 16 },
    ghost one_room: { stage.room ≡ geometry.words },
    ghost all_segments: { vec_len segments ≡ geometry.segments },
}
