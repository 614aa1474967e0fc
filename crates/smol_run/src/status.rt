ghost use Rattle.std.specs.Prelude.{◌≡◌};
ghost use Rattle.smol_run.specs.Told.{status_told};

use crate::stop::Stop;

/// How a run ends.
#[derive(Clone, Copy, Debug, PartialEq, Eq)]
pub enum Status {
    /// The run ended.
    Done,
    /// The words of the command line are refused.
    Usage,
    /// The configuration is refused.
    Refused,
    /// A read failed.
    Input,
    /// A write failed.
    Output,
    /// Memory ran out.
    Memory,
    /// The run passed the limit of molecules.
    Over,
}

impl Status {
    ghost use Rattle.smol_run.specs.Status.{exit_code_of};

    /// The program's exit status.
    pub fn code(self) -> u8
        ensures { result ≡ exit_code_of self }
    {
        self as u8
    }
}

/// The status of an answer: a status is its own, and each thing that stops a call has one.
pub fn status_told(made: Result<Status, Stop>) -> Status
    ensures { result ≡ status_told made }
{
    match made {
        Ok(status) => status,
        Err(Stop::Input) => Status::Input,
        Err(Stop::Output) => Status::Output,
        Err(Stop::Memory) => Status::Memory,
    }
}
