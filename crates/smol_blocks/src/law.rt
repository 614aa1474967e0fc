//! Laws of what lines say of blocks. The functions do nothing: each law is a contract.
ghost use Rattle.std.specs.Prelude.{◌≡◌, ◌≤◌, [], ◌∷◌, ℕ, List, Option, None, Some, Ok, length, true};
ghost use Rattle.smol_text.specs.Reading.{Stated};
ghost use Rattle.smol_line.specs.declared.axes.Axes.{Axes};
ghost use Rattle.smol_line.specs.Axes.{AreAxes};
ghost use Rattle.smol_blocks.specs.declared.block_statement.BlockStatement.{BlockStatement};
ghost use Rattle.smol_blocks.specs.Blocks.{BlockSaid, block_line_in, block_of, compartment_names, compartments_of, is_outside, surface_names, surfaces_of};
ghost use Rattle.smol_blocks.specs.BlocksSound.{AreBlocks};

/// What lines without a fault say of blocks is sound: nothing said is, a line more keeps it so, and so do `dim`,
/// which stands before every block, and `species`, which may stand behind some.
#[tactic(auto, using(crate::proofs::SoundBlocks::blocks_keep, crate::proofs::SoundBlocks::no_blocks, crate::proofs::SoundBlocks::axes_given, crate::proofs::SoundBlocks::species_given))]
pub fn lines_keep_blocks_sound()
    ensures line { (statement : BlockStatement) (axes : Axes) (species : List (List ℕ)) (said : List BlockSaid)
        (line : Stated) (more : BlockSaid)
        → block_line_in statement axes species said line ≡ Ok more → AreAxes axes
        → AreBlocks axes.dims (length species) said → AreBlocks axes.dims (length species) (more ∷ said) }
    ensures nothing { (dims : Option ℕ) (species_count : ℕ) → AreBlocks dims species_count [] }
    ensures axes { (dims species_count : ℕ) (said : List BlockSaid)
        → AreBlocks None species_count said → AreBlocks (Some dims) species_count said }
    ensures species { (dims : Option ℕ) (species_count more_species : ℕ) (said : List BlockSaid) → species_count ≤ more_species
        → AreBlocks dims species_count said → AreBlocks dims more_species said }
{}

/// Outside each block every surface and compartment that has a name is closed, so that their counts are those of the names.
#[tactic(auto, using(crate::proofs::SoundBlocks::outside_equal))]
pub fn named_blocks_are_closed()
    ensures surfaces { (dims species_count : ℕ) (said : List BlockSaid)
        → AreBlocks (Some dims) species_count said → is_outside (block_of said) ≡ true
        → length (surface_names said) ≡ length (surfaces_of said) }
    ensures compartments { (dims species_count : ℕ) (said : List BlockSaid)
        → AreBlocks (Some dims) species_count said → is_outside (block_of said) ≡ true
        → length (compartment_names said) ≡ length (compartments_of said) }
{}

/// No line takes a compartment away.
#[tactic(auto, using(crate::proofs::SoundBlocks::compartments_grow))]
pub fn lines_keep_compartments()
    ensures { (statement : BlockStatement) (axes : Axes) (species : List (List ℕ)) (said : List BlockSaid)
        (line : Stated) (more : BlockSaid)
        → block_line_in statement axes species said line ≡ Ok more
        → length (compartments_of said) ≤ length (compartments_of (more ∷ said)) }
{}
