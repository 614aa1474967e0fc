use thiserror::Error;

/// Why there is no state after a step.
#[derive(Debug, Drop, Error)]
pub enum StepFault {
    /// There would be so many molecules, which are more than there may be.
    #[error("{found} molecules")]
    TooManyMolecules { found: u64 },
    /// Memory ran out.
    #[error("out of memory")]
    OutOfMemory,
}
