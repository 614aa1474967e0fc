ghost use Rattle.std.specs.Prelude.{◌≡◌};
ghost use Rattle.smol_blocks.specs.Told.{told_at};

use smol_line::Refusal;
use smol_types::ConfigFault;

/// The refusal of the line of this number, where 0 stands for the whole file.
pub fn told_at(line: u32, refusal: Refusal) -> ConfigFault
    ensures { result ≡ told_at line refusal }
{
    match refusal {
        Refusal::At(kind) => ConfigFault::At { line, kind },
        Refusal::OutOfMemory => ConfigFault::OutOfMemory,
    }
}
