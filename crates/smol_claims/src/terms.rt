//! What is settled before a matching begins.
use smol_plan::Plan;

/// The terms of a matching: its plan, and how many workers there are.
#[derive(Drop)]
pub struct Terms {
    pub plan: Plan,
    pub workers: u32,
}
