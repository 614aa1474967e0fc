//! Pages are written to their outlets.
ghost use Rattle.std.specs.Prelude.{◌≡◌, ◌+◌, ◌≤◌, ◌<◌, [], ◌∷◌, OnErr, OnOk, length, replicate};
ghost use Rattle.smol_edge.specs.Faults.{Rose, Tells};
ghost use Rattle.smol_edge.specs.Outlets.{Appends, AppendsFrontOf};
ghost use Rattle.smol_loop.specs.Parts.{on_pages};

use smol_edge::{Failed, Outlets, put_all};
use smol_print::Pages;

// Writes a page that isn't empty to its outlet.
fn write_page<K: Outlets>(page: &[u8], outlet: u32, outlets: &mut K) -> Result<(), Failed>
    requires { outlet < 2 + K.opened outlets.old }
    ensures appended { OnOk result (Tells (K.told outlets.old) (K.told outlets.new) (Appends ((outlet, page.now) ∷ []))) }
    ensures front_appended { OnErr result (Tells (K.told outlets.old) (K.told outlets.new) (AppendsFrontOf ((outlet, page.now) ∷ []))) }
    ensures opened { K.opened outlets.new ≡ K.opened outlets.old }
    ensures cause { OnErr result (Rose (K.faults outlets.old) (K.faults outlets.new)) }
    ensures no_fault { OnOk result (K.faults outlets.new ≡ K.faults outlets.old) }
{
    if page.is_empty() {
        return Ok(());
    }
    put_all(outlets, outlet, page)
}

/// Writes each page that isn't empty, in the order of outlets, and makes all of them empty.
pub fn write_pages<K: Outlets>(count: u32, pages: &mut Pages, outlets: &mut K) -> Result<(), Failed>
    requires count { count ≡ length pages.old }
    requires opened { length pages.old ≤ 2 + K.opened outlets.old }
    ensures appended { OnOk result (Tells (K.told outlets.old) (K.told outlets.new) (Appends (on_pages 0 pages.old))) }
    ensures front_appended { OnErr result (Tells (K.told outlets.old) (K.told outlets.new) (AppendsFrontOf (on_pages 0 pages.old))) }
    ensures cleared { OnOk result (pages.new ≡ replicate count []) }
    ensures opened { K.opened outlets.new ≡ K.opened outlets.old }
    ensures cause { OnErr result (Rose (K.faults outlets.old) (K.faults outlets.new)) }
    ensures no_fault { OnOk result (K.faults outlets.new ≡ K.faults outlets.old) }
{
    for outlet in 0..count {
        write_page(pages.page(outlet), outlet, outlets)?;
    }
    pages.clear();
    Ok(())
}
