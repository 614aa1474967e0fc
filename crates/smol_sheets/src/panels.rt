ghost use Rattle.std.specs.Prelude.{◌≡◌, ◌++◌, All, IfOk, map};
ghost use Rattle.smol_types.specs.declared.surface.Panel.{Panel};
ghost use Rattle.smol_types.specs.declared.wall.Wall.{Wall};
ghost use Rattle.smol_meaning.specs.declared.sheet.Sheet.TheVariants.{Plane, Rectangle};
ghost use Rattle.smol_meaning.specs.Folds.{IsSheet};
ghost use Rattle.smol_sheets.specs.Sheets.{stand_of};

use crate::boxes::{cells_of, limited};
use crate::sheet::{Stand, stand_of};
use smol_cells::{Cells, Touching};
use smol_geom::Cuboid;
use smol_meaning::Sheet;
use smol_types::{Config, Panel, Wall};
use std::alloc::{AllocError, Global};
use std::marker::Model;

// So many panels are sooner looked at in turn than found by boxes.
const FEW: usize = 16;

/// The panels and walls of a configuration, ready to be looked through. Contracts see them as the configuration's draft.
#[derive(Drop)]
pub struct Panels<'a> {
    config: &'a Config,
    // Where panels and walls are, in the order of their numbers.
    sheets: Vec<Sheet>,
    // The axis and the plane of each, in the same order. A molecule that meets nothing looks at these alone.
    stands: Vec<Stand>,
    // Which panels are in which boxes.
    cells: Cells,
}

impl<'a> Model for Panels<'a> {
    ghost use Rattle.std.specs.Prelude.{◌≡◌, map};
    ghost use Rattle.smol_types.specs.declared.draft.Draft.{Draft};
    ghost use Rattle.smol_types.specs.Sound.{IsSound};
    ghost use Rattle.smol_cells.specs.Kept.{AreOf};
    ghost use Rattle.smol_cells.specs.Numbered.{boxes_of_rect};
    ghost use Rattle.smol_sheets.specs.Sheets.{rect_of, sheets_of, stand_of};

    ghost Value = { Draft };

    ghost view = { λ panels. panels.config.now };

    ghost invariant = { λ panels. IsSound panels.config.now × (panels.sheets.items ≡ sheets_of panels.config.now)
        × (panels.stands.items ≡ map stand_of (sheets_of panels.config.now))
        × AreOf (map (boxes_of_rect panels.cells.grid) (map rect_of panels.config.now.panels)) panels.cells };
}

impl<'a> Panels<'a> {
    ghost use Rattle.std.specs.Prelude.{◌≡◌, ℕ, ◌^◌, ◌<◌, ◌≤◌, ◌+◌, All, Contains, IfOk, Some, length, map, slice_get};
    ghost use Rattle.smol_geom.specs.Axes.{IsWithin};
    ghost use Rattle.smol_types.specs.Sound.{IsSound};
    ghost use Rattle.smol_cells.specs.Numbered.{IsFilled};
    ghost use Rattle.smol_cells.specs.TouchingLeft.{touching_left};
    ghost use Rattle.smol_meaning.specs.declared.sheet.Sheet.{Sheet};
    ghost use Rattle.smol_meaning.specs.Folds.{IsSheet};
    ghost use Rattle.smol_sheets.specs.Sheets.{IsReached, sheets_of, stand_of};

    /// The panels and walls of a configuration.
    pub fn of(alloc: Global, config: &'a Config) -> Result<Panels<'a>, AllocError>
        ensures { IfOk result (λ panels. panels ≡ config.now) }
    {
        let sheets = all_sheets(alloc, config.panels(), config.walls())?;
        let stands = all_stands(alloc, sheets.as_slice())?;
        let cells = cells_of(alloc, config.panels())?;
        Ok(Panels {
            config,
            sheets,
            stands,
            cells,
        })
    }

    /// The configuration.
    pub fn config(&self) -> &Config
        ensures value { result.now ≡ self.now }
        ensures sound { IsSound self.now }
    {
        self.config
    }

    /// Where the panels and walls stand, in the order of their numbers: panels, and walls behind them.
    pub fn sheets(&self) -> &[Sheet]
        ensures value { result.now ≡ sheets_of self.now }
        ensures count { length result.now ≡ length self.now.panels + length self.now.walls }
        ensures bounds { All IsSheet result.now }
        ensures sound { IsSound self.now }
    {
        self.sheets.as_slice()
    }

    /// The axis and the plane of each panel and wall, in the order of their numbers.
    pub fn stands(&self) -> &[Stand]
        ensures { result.now ≡ map stand_of (sheets_of self.now) }
    {
        self.stands.as_slice()
    }

    /// The number from which on panels and walls are best looked at in turn, and before which panels are best looked for by `touching`.
    /// Whichever it is, the same is found. It is 0 where there are few panels.
    pub fn first_in_turn(&self) -> usize
        ensures count { result ≤ length self.now.panels }
        ensures sound { IsSound self.now }
    {
        let count = self.config.panels().len();
        if count <= FEW { 0 } else { count }
    }

    /// The numbers of panels near a cuboid, in ticks: those of all that it meets, and of others. They come in no order and with repeats.
    /// Takes no memory.
    pub fn touching(&self, c: &Cuboid) -> Touching<'_>
        requires low { IsWithin (2 ^ 60) c.now.low }
        requires high { IsWithin (2 ^ 60) c.now.high }
        requires filled { IsFilled c.now }
        ensures known { All (λ (number : ℕ). number < length self.now.panels) (touching_left result) }
        ensures near { (number : ℕ) (sheet : Sheet) → number < length self.now.panels → slice_get (sheets_of self.now) number ≡ Some sheet
            → IsReached c.now sheet → Contains (touching_left result) number }
    {
        self.cells.touching(&limited(c))
    }
}

// Where panels stand, and behind them where walls do.
fn all_sheets(alloc: Global, panels: &[Panel], walls: &[Wall]) -> Result<Vec<Sheet>, AllocError>
    ensures { IfOk result (λ sheets. sheets.items ≡
        map (λ (panel : Panel). Rectangle panel.rect) panels.now ++ map (λ (wall : Wall). Plane wall.axis wall.plane) walls.now) }
{
    let rectangles = panels
        .iter()
        .map(|panel| Sheet::Rectangle { rect: panel.rect });
    let planes = walls.iter().map(|wall| Sheet::Plane {
        axis: wall.axis,
        plane: wall.plane,
    });
    rectangles.chain(planes).collect(alloc)
}

// The axis and the plane of each.
fn all_stands(alloc: Global, sheets: &[Sheet]) -> Result<Vec<Stand>, AllocError>
    requires { All IsSheet sheets.now }
    ensures { IfOk result (λ stands. stands.items ≡ map stand_of sheets.now) }
{
    sheets.iter().map(stand_of).collect(alloc)
}
