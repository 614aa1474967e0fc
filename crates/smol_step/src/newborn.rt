//! Products on their way into the list.
ghost use Rattle.std.specs.Prelude.{◌≡◌, ◌++◌, All, OnOk};
ghost use Rattle.std.specs.List.{filter_map};
ghost use Rattle.smol_meaning.specs.declared.event.Birth.{Birth as TheBirth};
ghost use Rattle.smol_meaning.specs.Events.{birth_move, born};
ghost use Rattle.smol_meaning.specs.Placed.{IsMoveOf};

use crate::arrival::arrived;
use smol_births::Birth;
use smol_travel::Panels;
use smol_types::Mol;
use std::alloc::AllocError;

// A product at the end of its way, where it wasn't absorbed.
fn born(panels: &Panels, birth: &Birth) -> Option<Mol>
    requires { IsMoveOf panels.now (birth_move birth.now) }
    ensures { result ≡ born panels.now birth.now }
{
    let begun = Mol {
        serial: birth.serial,
        species: birth.species,
        place: birth.start,
    };
    arrived(panels, &begun, birth.by)
}

/// Adds the products that aren't absorbed.
pub(crate) fn add_newborn(
    panels: &Panels,
    births: &[Birth],
    mols: &mut Vec<Mol>,
) -> Result<(), AllocError>
    requires { All (λ (birth : TheBirth). IsMoveOf panels.now (birth_move birth)) births.now }
    ensures { OnOk result (mols.new.items ≡ mols.old.items ++ filter_map (born panels.now) births.now) }
{
    for birth in births {
        if let Some(m) = born(panels, birth) {
            mols.push(m)?;
        }
    }
    Ok(())
}
