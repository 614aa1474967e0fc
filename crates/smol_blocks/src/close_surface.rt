//! The surface and the panels that come of a surface's block.
ghost use Rattle.std.specs.Prelude.{◌≡◌, ◌+◌, ◌<◌, ◌≤◌, ◌^◌, List, length, IfOk, IfSome};
ghost use Rattle.smol_types.specs.Limits.{most_panels};
ghost use Rattle.smol_blocks.specs.Surface.{SurfaceSaid};
ghost use Rattle.smol_blocks.specs.SurfaceTable.{ArePaired, Holds};
ghost use Rattle.smol_blocks.specs.Blocks.{numbered_face, panels_in};

use crate::action_table::ActionTable;
use crate::surface_table::SurfaceTable;
use smol_types::{Face, Items, Panel, Surface};
use std::alloc::{AllocError, Global};

// A panel of a surface by its number over the whole file, where so many panels of other surfaces stand before.
fn numbered_face(others: usize, to: Option<(u16, Face)>) -> Option<(u16, Face)>
    requires { IfSome to (λ to. others + to.0 < 2 ^ 16) }
    ensures { result ≡ numbered_face others to }
{
    match to {
        None => None,
        Some((panel, face)) => Some((others as u16 + panel, face)),
    }
}

/// The panels of the surface of this number, where so many of other surfaces stand before.
pub fn panels_of(
    alloc: Global,
    table: &SurfaceTable,
    surface: u16,
    others: usize,
) -> Result<Items<Panel>, AllocError>
    requires paired { ArePaired table.now.panels }
    requires few { others + length table.now.panels.names ≤ most_panels }
    ensures panels { IfOk result (λ panels. (lines : List SurfaceSaid) → Holds table.now lines → panels ≡ panels_in surface others lines) }
    ensures count { IfOk result (λ panels. length panels ≡ length table.now.panels.names) }
{
    let mut panels = Items::new(alloc);
    for k in 0..table.panels.rects.len() {
        panels.push(Panel {
            rect: table.panels.rects[k],
            greater: table.panels.sides[k],
            surface,
            front_to: numbered_face(others, table.panels.front_to[k]),
            back_to: numbered_face(others, table.panels.back_to[k]),
        })?;
    }
    Ok(panels)
}

/// The surface whose faces do this.
pub fn surface_of(actions: ActionTable) -> Surface
    ensures { result ≡ record {
      front = actions.front.actions.items;
      back = actions.back.actions.items;
      front_new = actions.front.changes.items;
      back_new = actions.back.changes.items;
    } }
{
    let ActionTable { front, back } = actions;
    Surface {
        front: Items::from_vec(front.actions),
        back: Items::from_vec(back.actions),
        front_new: Items::from_vec(front.changes),
        back_new: Items::from_vec(back.changes),
    }
}
