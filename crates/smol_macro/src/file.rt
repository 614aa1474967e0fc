//! The bytes of a file.
ghost use Rattle.std.specs.Prelude.{◌≡◌, ◌≤◌, length, IfOk, IsErrOf};
ghost use Rattle.smol_edge.specs.Faults.{Rose, Tells};
ghost use Rattle.smol_macro.specs.Refusal.{UnlessReadFault};
ghost use Rattle.smol_macro.specs.Files.{file_in, ReadsFile};

use crate::expand_fault::{ExpandFault, MacroKind};
use smol_edge::{Source, TakeFault, take_all};
use std::alloc::Global;

/// The most bytes that a file may have.
const MOST_BYTES: usize = 4_194_304;

/// Opens the file of this name and takes all its bytes.
pub(crate) fn read_file<S: Source>(
    alloc: Global,
    source: &mut S,
    name: &str,
) -> Result<Vec<u8>, ExpandFault>
    ensures read { Tells (S.told source.old) (S.told source.new) (ReadsFile name.now (λ contents. file_in (contents name.now)) result) }
    ensures within { IfOk result (λ bytes. length bytes.items ≤ 4194304) }
    ensures faults_stay { S.faults source.old ≤ S.faults source.new }
    ensures cause { IsErrOf result ExpandFault.ReadFault → Rose (S.faults source.old) (S.faults source.new) }
    ensures no_fault { UnlessReadFault result (S.faults source.new ≡ S.faults source.old) }
{
    let Ok(()) = source.open(name) else {
        return Err(ExpandFault::ReadFault);
    };
    match take_all(alloc, source, MOST_BYTES) {
        Ok(bytes) => Ok(bytes),
        Err(TakeFault::TooLong) => Err(ExpandFault::At {
            line: 0,
            kind: MacroKind::TooLong,
        }),
        Err(TakeFault::ReadFault) => Err(ExpandFault::ReadFault),
        Err(TakeFault::OutOfMemory) => Err(ExpandFault::OutOfMemory),
    }
}
