//! The first word of a line.
ghost use Rattle.std.specs.Prelude.{◌≡◌, map};
ghost use Rattle.std.specs.List.{list_any};
ghost use Rattle.std.specs.Str.{bytes_eq};
ghost use Rattle.smol_blocks.specs.Statement.{named};

use crate::block_statement::BlockStatement;
use crate::surface_statement::SurfaceStatement;
use smol_line::spells;

/// The first words of lines that are passed over unread.
const PASSED_OVER: [&str; 37] = [
    "graphics",
    "graphic_iter",
    "graphic_delay",
    "quit_at_end",
    "frame_thickness",
    "frame_color",
    "frame_colour",
    "grid_thickness",
    "grid_color",
    "grid_colour",
    "background_color",
    "background_colour",
    "display_size",
    "color",
    "colour",
    "light",
    "text_color",
    "text_colour",
    "text_display",
    "tiff_iter",
    "tiff_name",
    "tiff_min",
    "tiff_max",
    "polygon",
    "thickness",
    "stipple",
    "shininess",
    "max_species",
    "max_panels",
    "molecule_lists",
    "mol_list",
    "accuracy",
    "molperbox",
    "boxsize",
    "epsilon",
    "margin",
    "neighbor_dist",
];

/// The first words of lines that the profile leaves out.
const NOT_IN_PROFILE: [&str; 24] = [
    "low_wall",
    "high_wall",
    "define",
    "undefine",
    "ifdefine",
    "ifundefine",
    "else",
    "endif",
    "read_file",
    "output_root",
    "output_precision",
    "append_files",
    "start_port",
    "start_lattice",
    "start_filament",
    "start_reaction",
    "drift",
    "difm",
    "surface_mol",
    "reaction_rate",
    "rate",
    "unbounded_emitter",
    "compartment",
    "set",
];

/// What the first word of a line says that the line is.
#[derive(Clone, Copy, Debug, PartialEq, Eq)]
pub enum Statement {
    PassedOver,
    NotInProfile,
    Unknown,
    Dim,
    Species,
    Difc,
    Difstep,
    TimeStart,
    TimeStop,
    TimeStep,
    MaxMol,
    RandomSeed,
    PairOrder,
    Boundaries,
    Mol,
    CompartmentMol,
    Reaction,
    BindingRadius,
    ReactionProbability,
    ProductPlacement,
    Block(BlockStatement),
    OutputFiles,
    Cmd,
}

/// The first words of the statements that are read.
const BUILT: [(&str, Statement); 28] = [
    ("dim", Statement::Dim),
    ("species", Statement::Species),
    ("difc", Statement::Difc),
    ("difstep", Statement::Difstep),
    ("time_start", Statement::TimeStart),
    ("time_stop", Statement::TimeStop),
    ("time_step", Statement::TimeStep),
    ("max_mol", Statement::MaxMol),
    ("random_seed", Statement::RandomSeed),
    ("pair_order", Statement::PairOrder),
    ("boundaries", Statement::Boundaries),
    ("mol", Statement::Mol),
    ("compartment_mol", Statement::CompartmentMol),
    ("reaction", Statement::Reaction),
    ("binding_radius", Statement::BindingRadius),
    ("reaction_probability", Statement::ReactionProbability),
    ("product_placement", Statement::ProductPlacement),
    (
        "start_surface",
        Statement::Block(BlockStatement::StartSurface),
    ),
    (
        "action",
        Statement::Block(BlockStatement::InSurface(SurfaceStatement::Action)),
    ),
    (
        "panel",
        Statement::Block(BlockStatement::InSurface(SurfaceStatement::Panel)),
    ),
    (
        "jump",
        Statement::Block(BlockStatement::InSurface(SurfaceStatement::Jump)),
    ),
    ("end_surface", Statement::Block(BlockStatement::EndSurface)),
    (
        "start_compartment",
        Statement::Block(BlockStatement::StartCompartment),
    ),
    ("surface", Statement::Block(BlockStatement::Surface)),
    ("point", Statement::Block(BlockStatement::Point)),
    (
        "end_compartment",
        Statement::Block(BlockStatement::EndCompartment),
    ),
    ("output_files", Statement::OutputFiles),
    ("cmd", Statement::Cmd),
];

fn is_among(word: &[u8], names: &[&str]) -> bool
    ensures { result ≡ list_any (λ name. bytes_eq word.now name.now) names.now }
{
    names.iter().any(|name| spells(word, name))
}

// What a word stands for in a table.
fn named(table: &[(&str, Statement)], word: &[u8]) -> Statement
    ensures { result ≡ named (map (λ entry. (entry.0.now, entry.1)) table.now) word.now }
{
    for entry in table {
        if spells(word, entry.0) {
            return entry.1;
        }
    }
    Statement::Unknown
}

impl Statement {
    ghost use Rattle.smol_blocks.specs.Statement.{statement_of};

    /// The statement that a word makes at the beginning of a line.
    #[tactic(auto, using(crate::proofs::StatementLemmas::passed_over_words_are_looked_for, crate::proofs::StatementLemmas::left_out_words_are_looked_for), unfolding(crate::specs::Statement::statement_of))]
    pub fn of(word: &[u8]) -> Statement
        ensures { result ≡ statement_of word.now }
    {
        if is_among(word, &PASSED_OVER) {
            Statement::PassedOver
        } else if is_among(word, &NOT_IN_PROFILE) {
            Statement::NotInProfile
        } else {
            named(&BUILT, word)
        }
    }
}
