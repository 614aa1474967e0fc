//! What a run has throughout.
use smol_step::Setup;
use std::alloc::Global;

/// A run: its configuration with what each step looks up, and the seed of its random words.
#[derive(Drop)]
pub struct Run<'a> {
    pub alloc: Global,
    pub setup: &'a Setup<'a>,
    pub seed: u64,
}

/// Who makes the steps: threads, how many workers match the pairs of a step, and the gate that may hold them.
#[derive(Drop)]
pub struct Team<'a, R, G> {
    pub rt: &'a R,
    pub workers: u32,
    pub gate: &'a G,
}
