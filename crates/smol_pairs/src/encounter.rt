/// Two molecules that may react in a step: their ranks in the list after motion, that of the lower serial first, and the
/// reaction. They are compared by the lower rank, then by the higher one, then by the reaction.
#[derive(Clone, Copy, Debug, PartialEq, Eq, PartialOrd, Ord)]
pub struct Encounter {
    pub rank_a: u32,
    pub rank_b: u32,
    pub reaction: u16,
}
