//! All bytes to one outlet.
ghost use Rattle.std.specs.Prelude.{◌≡◌, ◌+◌, ◌<◌, ◌≤◌, [], ◌∷◌, OnOk, OnErr};
ghost use Rattle.smol_edge.specs.Faults.{Rose, Tells};
ghost use Rattle.smol_edge.specs.Outlets.{Appends, AppendsFrontOf};

use crate::{Failed, Outlets};

/// Writes all the bytes to an outlet, in as many writes as it takes. Where a write fails, a front of
/// the bytes has been written, and the rest has not.
pub fn put_all<K: Outlets>(outlets: &mut K, outlet: u32, bytes: &[u8]) -> Result<(), Failed>
    requires { outlet < 2 + K.opened outlets.old }
    ensures appended { OnOk result (Tells (K.told outlets.old) (K.told outlets.new) (Appends ((outlet, bytes.now) ∷ []))) }
    ensures front_appended { OnErr result (Tells (K.told outlets.old) (K.told outlets.new) (AppendsFrontOf ((outlet, bytes.now) ∷ []))) }
    ensures opened_stays { K.opened outlets.new ≡ K.opened outlets.old }
    ensures faults_stay { K.faults outlets.old ≤ K.faults outlets.new }
    ensures cause { OnErr result (Rose (K.faults outlets.old) (K.faults outlets.new)) }
    ensures no_fault { OnOk result (K.faults outlets.new ≡ K.faults outlets.old) }
{
    let mut written = 0;
    while written < bytes.len() {
        written += outlets.write(outlet, &bytes[written..])?;
    }
    Ok(())
}
