//! Whether places are inside compartments.
ghost use Rattle.std.specs.Prelude.{◌≡◌, ◌^◌, ◌<◌, All, length};
ghost use Rattle.smol_meaning.specs.Inside.{is_bounding, is_clear, is_inside, is_inside_of};
ghost use Rattle.smol_meaning.specs.Sighted.{IsPlaceWithin};

use smol_geom::Place;
use smol_meaning::meets_panel;
use smol_types::{Compartment, Config, Panel};

/// Whether a place is inside the compartment of this number: from it the straight line to some interior-defining
/// point meets no panel of the compartment's surfaces.
#[tactic(auto, unfolding(smol_meaning::specs::Inside::is_inside))]
pub fn inside(config: &Config, c: u16, p: &Place) -> bool
    requires compartment { c < length config.now.compartments }
    requires place { IsPlaceWithin (2 ^ 57) p.now }
    ensures { result ≡ is_inside config.now c p.now }
{
    is_inside_of(config, &config.compartments()[c as usize], p)
}

// Whether a place is inside a compartment.
fn is_inside_of(config: &Config, compartment: &Compartment, place: &Place) -> bool
    requires points { All (IsPlaceWithin (2 ^ 58)) compartment.now.points }
    requires place { IsPlaceWithin (2 ^ 58) place.now }
    ensures { result ≡ is_inside_of config.now.panels compartment.now place.now }
{
    let surfaces = compartment.surfaces.as_slice();
    for point in compartment.points.as_slice() {
        if is_clear(config, surfaces, place, point) {
            return true;
        }
    }
    false
}

// Whether the straight line between two places meets no panel of the surfaces.
fn is_clear(config: &Config, surfaces: &[u16], a: &Place, b: &Place) -> bool
    requires a { IsPlaceWithin (2 ^ 58) a.now }
    requires b { IsPlaceWithin (2 ^ 58) b.now }
    ensures { result ≡ is_clear config.now.panels surfaces.now a.now b.now }
{
    for panel in config.panels() {
        if is_bounding(surfaces, panel) && meets_panel(&panel.rect, a, b) {
            return false;
        }
    }
    true
}

// Whether a panel belongs to one of the surfaces.
fn is_bounding(surfaces: &[u16], panel: &Panel) -> bool
    ensures { result ≡ is_bounding surfaces.now panel.now }
{
    surfaces.iter().any(|surface| panel.surface == *surface)
}
