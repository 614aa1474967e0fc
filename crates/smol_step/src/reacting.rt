use smol_births::Fired;

/// What reacts in a step.
#[derive(Drop)]
pub(crate) struct Reacting {
    /// Whether each molecule of the list after motion has made no reaction yet.
    pub(crate) free: Vec<bool>,
    /// The reactions so far.
    pub(crate) events: Vec<Fired>,
}
