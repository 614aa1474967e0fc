/// How a run goes on behind a command.
#[derive(Clone, Copy, Debug, PartialEq, Eq)]
pub enum Flow {
    /// With the next command.
    Go,
    /// The phase ends.
    Stop,
}
