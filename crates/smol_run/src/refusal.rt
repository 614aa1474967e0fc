//! Why a text is refused. Whether a fault is a refusal is a matter of the fault alone, and takes no memory.
ghost use Rattle.std.specs.Prelude.{◌≡◌};
ghost use Rattle.smol_run.specs.Told.{refusal_of, refusal_of_files};

use crate::loss::Loss;
use crate::stop::Stop;
use smol_macro::{ExpandFault, MacroKind};
use smol_types::{ConfigFault, Kind};

/// The line at which a text is refused, where 0 is the text as a whole, and why.
#[derive(Clone, Copy, Debug, PartialEq, Eq)]
pub struct Refusal<K> {
    pub line: u32,
    pub kind: K,
}

/// The refusal that a fault of a configuration is, or what cut its reading off.
pub fn refusal_of(fault: ConfigFault) -> Result<Refusal<Kind>, Loss>
    ensures { result ≡ refusal_of fault }
{
    match fault {
        ConfigFault::At { line, kind } => Ok(Refusal { line, kind }),
        ConfigFault::OutOfMemory => Err(Loss::Memory),
    }
}

/// The refusal that files meet which give no text, or what stopped their reading.
pub fn refusal_of_files(fault: ExpandFault) -> Result<Refusal<MacroKind>, Stop>
    ensures { result ≡ refusal_of_files fault }
{
    match fault {
        ExpandFault::At { line, kind } => Ok(Refusal { line, kind }),
        ExpandFault::ReadFault => Err(Stop::Input),
        ExpandFault::OutOfMemory => Err(Stop::Memory),
    }
}
