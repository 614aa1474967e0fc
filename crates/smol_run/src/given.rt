/// What the words give beside the name of a file: a seed or none, how many workers make a run, and how many runs are made,
/// where it isn't one alone.
#[derive(Clone, Copy, Debug)]
pub struct Given {
    pub seed: Option<u64>,
    pub workers: u32,
    pub runs: Option<u32>,
}
