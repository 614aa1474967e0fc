ghost use Rattle.std.specs.Prelude.{◌≡◌};
ghost use Rattle.smol_app.specs.Exit.{exit_code};

use smol_run::Status;
use std::alloc::AllocError;

/// The exit status of the program: that of its run, or that of want of memory where there was none to begin with.
pub fn exit_of(ended: Result<Status, AllocError>) -> u8
    ensures { result ≡ exit_code ended }
{
    ended.unwrap_or(Status::Memory).code()
}
