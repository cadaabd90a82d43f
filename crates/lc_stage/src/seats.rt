//! The seats of the committers and of the flusher.
ghost use Rattle.std.specs.Prelude.{◌≡◌, ℕ, ◌+◌, ◌*◌, ◌<◌, ◌^◌, ◌≤◌, true, false, [], length};
ghost use Rattle.lc_stage.specs.Receipts.{IsReceiptOf};
ghost use Rattle.lc_stage.specs.Staging.{latest, newest, open_count, offset_of};

use crate::receipt::Receipt;
use crate::stage_view::StageView;
use atomic_table::Seat;

/// What a committer steps with. It has no more than one open reservation, its newest.
#[derive(Drop)]
pub struct CommitSeat {
    pub(crate) seat: Seat<(), StageView>,
    pub(crate) round: u64,
    pub(crate) place: u32,
    pub(crate) words: u32,
    pub(crate) last: Receipt,
    ghost at_newest: { (newest seat.me.0.mine).closed ≡ false
        → (round ≡ (newest seat.me.0.mine).round) × (place ≡ (newest seat.me.0.mine).place)
        × (words ≡ length (newest seat.me.0.mine).words) × (place + words ≤ seat.me.0.room) },
    ghost at_last: { IsReceiptOf (latest seat.me.0.mine) last },
    ghost in_rounds: { (round < 2 ^ 48) × (last.round < 2 ^ 48) × (last.place + last.words ≤ seat.me.0.room)
        × (seat.me.0.room < 32768) },
    ghost one_open: { open_count seat.me.0.mine ≤ 1 },
    ghost seen_in_room: { offset_of seat.me.0.seen ≤ seat.me.0.room },
    ghost of_table: { 2 * seat.me.0.room + 2 ≡ seat.table_id.words },
    ghost no_slots: { seat.me.1 ≡ [] },
    ghost commits: { (seat.me.0.flushes ≡ false) × (seat.me.0.past ≡ []) × (seat.me.0.taken ≡ [])
        × (seat.me.0.cleared ≡ 0) × (seat.me.0.sealed ≡ false) × (seat.me.0.sealed_at ≡ 0) × (seat.me.0.ended ≡ 0)
        × (seat.me.0.ended_cleared ≡ 0) × (seat.me.0.loads ≡ []) × (seat.me.0.published ≡ 0) × (seat.me.0.heard ≡ 0) },
}

/// What the flusher steps with.
#[derive(Drop)]
pub struct FlushSeat {
    pub(crate) seat: Seat<(), StageView>,
    pub(crate) round: u64,
    pub(crate) end: u32,
    pub(crate) cleared: u32,
    pub(crate) ended: u32,
    pub(crate) ended_cleared: u32,
    ghost at_end: { end ≡ length seat.me.0.taken },
    ghost in_room: { length seat.me.0.taken ≤ seat.me.0.room },
    ghost of_table: { 2 * seat.me.0.room + 2 ≡ seat.table_id.words },
    ghost no_slots: { seat.me.1 ≡ [] },
    ghost flushes: { (seat.me.0.flushes ≡ true) × (seat.me.0.seen ≡ 0) × (seat.me.0.durable ≡ 0) × (seat.me.0.mine ≡ [])
        × (seat.me.0.receipts ≡ []) },
    ghost at_cleared: { (cleared ≡ seat.me.0.cleared) × (cleared ≤ end) },
    ghost at_ended: { (ended ≡ seat.me.0.ended) × (ended ≤ seat.me.0.room) },
    ghost at_ended_cleared: { (ended_cleared ≡ seat.me.0.ended_cleared) × (ended_cleared ≤ ended) },
    ghost in_rounds: { (round ≡ length seat.me.0.past) × (round < 2 ^ 48) },
}
