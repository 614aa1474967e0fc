//! Molecules at the ends of their ways.
ghost use Rattle.std.specs.Prelude.{◌≡◌, ◌<◌, IfSome, length};
ghost use Rattle.smol_meaning.specs.Motion.{arrived};
ghost use Rattle.smol_meaning.specs.Moves.{IsMove};
ghost use Rattle.smol_meaning.specs.Seen.{way};

use smol_geom::Step3;
use smol_travel::{Panels, Travelled, travel};
use smol_types::Mol;

/// A molecule at the end of the way that it goes from its place, where it wasn't absorbed, as what it has become on it.
pub(crate) fn arrived(panels: &Panels, m: &Mol, by: Step3) -> Option<Mol>
    requires species { m.now.species < length panels.now.species }
    requires moving { IsMove panels.now.dims m.now.place by }
    ensures value { result ≡ arrived m.now (way panels.now m.now.species m.now.place by) }
    ensures species { IfSome result (λ after. after.species < length panels.now.species) }
    ensures serial { IfSome result (λ after. after.serial ≡ m.now.serial) }
{
    match travel(panels, m.species, m.place, by) {
        Travelled::At { place, species } => Some(Mol {
            serial: m.serial,
            species,
            place,
        }),
        Travelled::Absorbed(_) => None,
    }
}
