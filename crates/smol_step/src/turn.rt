// Which step of a run is made: its number, the seed of the run's random words, and how many workers match its pairs, which the
// gate may hold.
#[derive(Drop)]
pub(crate) struct Turn<'a, G> {
    pub(crate) k: u32,
    pub(crate) seed: u64,
    pub(crate) workers: u32,
    pub(crate) gate: &'a G,
}
