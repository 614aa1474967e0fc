//! The output files of a run.
ghost use Rattle.std.specs.Prelude.{◌≡◌, ◌+◌, ◌^◌, ◌≤◌, length, OnOk, OnErr};
ghost use Rattle.smol_edge.specs.Faults.{Rose, Tells};
ghost use Rattle.smol_run.specs.Opening.{OpensAll, OpensFront};

use smol_edge::{Failed, Outlets};
use smol_types::Name;

/// Opens files of these names, in their order. Where an opening fails, those before it are open.
pub fn open_all<K: Outlets>(outlets: &mut K, names: &[Name]) -> Result<(), Failed>
    requires { K.opened outlets.old + length names.now ≤ 2 ^ 31 }
    ensures opened { OnOk result (Tells (K.told outlets.old) (K.told outlets.new) (OpensAll names.now)) }
    ensures counted { OnOk result (K.opened outlets.new ≡ K.opened outlets.old + length names.now) }
    ensures front_opened { OnErr result (Tells (K.told outlets.old) (K.told outlets.new) (OpensFront names.now)) }
    ensures cause { OnErr result (Rose (K.faults outlets.old) (K.faults outlets.new)) }
    ensures no_fault { OnOk result (K.faults outlets.new ≡ K.faults outlets.old) }
{
    for name in names {
        outlets.open(name.as_str())?;
    }
    Ok(())
}
