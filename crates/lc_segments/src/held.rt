//! A segment that a caller holds.
use crate::boxed_side::BoxedSide;
use lc_disk::Area;
use lc_lock::Loan;

/// A segment that a caller holds.
pub struct HeldSide<D: Area + Drop> {
    pub side: BoxedSide<D>,
    pub loan: Loan<BoxedSide<D>, u32>,
}
