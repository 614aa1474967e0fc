//! The expanded text of a file.
ghost use Rattle.std.specs.Prelude.{◌≡◌, ◌≤◌, IfOk, IfErr, IfSome, OnOk, IsErrOf};
ghost use Rattle.smol_edge.specs.Faults.{Rose, Tells};
ghost use Rattle.smol_macro.specs.Refusal.{Refuses, UnlessReadFault};
ghost use Rattle.smol_macro.specs.Files.{AsksFront, AsksAll};
ghost use Rattle.smol_macro.specs.Including.{expanded, files_of};

use crate::expand_fault::ExpandFault;
use crate::files::Files;
use crate::lines::give_file;
use crate::walk::Walk;
use smol_edge::Source;
use std::alloc::Global;

/// How many files may be read at once beside the first.
const MORE_FILES: u32 = 15;

/// The expanded text of the file of this name, with the files that it asks for. Each line gives one line, and a line feed
/// stands between each two. `define` and `undefine` give an empty line, as do `ifdefine`, `ifundefine`, `else` and
/// `endif`, a line that a condition leaves out, a line of a block comment and the line of `end_file`. `read_file` gives
/// an empty line, and then the lines of the file that it names. Any other line gives its part before the comment, in
/// which each word that is a defined name is replaced by what it stands for. Definitions reach from file to file;
/// conditions, block comments and `end_file` act in their own file. The first refusal met from the first line on is
/// answered, with the number of the line in the expanded text. A file that the source doesn't have can't be opened, and
/// is a `ReadFault`.
pub fn expand<S: Source>(alloc: Global, source: &mut S, name: &str) -> Result<Vec<u8>, ExpandFault>
    ensures text { IfOk result (λ text. IfSome (S.told source.old) (λ reading. expanded reading.contents name.now ≡ Ok text.items)) }
    ensures refused { IfErr result (λ fault. IfSome (S.told source.old) (λ reading. Refuses fault (expanded reading.contents name.now))) }
    ensures asked { Tells (S.told source.old) (S.told source.new) (AsksFront (λ contents. files_of contents name.now)) }
    ensures all_asked { OnOk result (Tells (S.told source.old) (S.told source.new) (AsksAll (λ contents. files_of contents name.now))) }
    ensures faults_stay { S.faults source.old ≤ S.faults source.new }
    ensures cause { IsErrOf result ExpandFault.ReadFault → Rose (S.faults source.old) (S.faults source.new) }
    ensures no_fault { UnlessReadFault result (S.faults source.new ≡ S.faults source.old) }
{
    let mut walk = Walk::new(alloc);
    let mut files = Files::new(alloc);
    give_file(alloc, source, &mut walk, &mut files, name, MORE_FILES)?;
    Ok(walk.output.into_bytes())
}
