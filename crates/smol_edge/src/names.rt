//! Lists of names.
ghost use Rattle.std.specs.Prelude.{◌≡◌, ◌∷◌, ◌++◌, [], map, string_bytes, OnOk, OnErr};
ghost use Rattle.smol_edge.specs.Faults.{RoseByOne};

use crate::memory::Memory;
use std::alloc::AllocError;

/// Adds the name at the end of the list.
pub(crate) fn add_name(
    memory: &mut Memory,
    names: &mut Vec<String>,
    name: &str,
) -> Result<(), AllocError>
    ensures added { OnOk result (map string_bytes names.new.items ≡ map string_bytes names.old.items ++ name.now ∷ []) }
    ensures not_added { OnErr result (names.new.items ≡ names.old.items) }
    ensures given { OnOk result (memory.new ≡ memory.old) }
    ensures refused { OnErr result (RoseByOne memory.old memory.new) }
{
    memory.reserve(names, 1)?;
    let name = memory.copy(name)?;
    names.push(name).unwrap();
    Ok(())
}
