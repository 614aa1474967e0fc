//! Laws on who reacts, in words of their own. These functions do nothing: the laws are their contracts.
ghost use Rattle.std.specs.Prelude.{◌≡◌, ℕ, ◌↔◌, false, List, Contains, Some};
ghost use Rattle.smol_plan.specs.declared.pair.Pair.{Pair};
ghost use Rattle.smol_types.specs.declared.draft.Draft.{Draft};
ghost use Rattle.smol_types.specs.declared.state.Mol.{Mol};
ghost use Rattle.smol_types.specs.State.{Ascend};
ghost use Rattle.smol_meaning.specs.Encounters.{Encounter, candidates_of, encounters_of, pair_of};
ghost use Rattle.smol_meaning.specs.Events.{lone_reaction};
ghost use Rattle.smol_meaning.specs.Who.{AreInOrder, AreOrderedBy, ComesFirst, DrawsAlone, MayMeet};

/// A molecule makes reaction r alone exactly where its word is one of those that r has: at least as great as all shares
/// together that reactions before r have of the words of its species, and less than these and r's own.
pub fn a_molecule_makes_the_reaction_that_it_draws()
    ensures { (draft : Draft) (seed k : ℕ) (mol : Mol) (r : ℕ) → (lone_reaction draft seed k mol ≡ Some r) ↔ DrawsAlone draft seed k mol r }
{}

/// Two molecules are a candidate exactly where they may meet, and candidates are in the order of the lower serial, then of the
/// higher one, then of the reaction. Where the configuration asks for the nearest first, they are in the order of their distances,
/// and only at one distance in that of the serials and the reaction.
pub fn candidates_are_those_that_may_meet()
    ensures encounters { (draft : Draft) (seed k : ℕ) (mols : List Mol) (e : Encounter)
        → Contains (encounters_of draft seed k mols) e ↔ MayMeet draft seed k mols e }
    ensures candidates { (draft : Draft) (seed k : ℕ) (mols : List Mol) (pair : Pair)
        → Contains (candidates_of draft seed k mols) pair ↔ ((e : Encounter) × (pair_of e ≡ pair) × MayMeet draft seed k mols e) }
    ensures order { (draft : Draft) (seed k low next : ℕ) (mols : List Mol) → Ascend low next mols
        → AreOrderedBy (ComesFirst draft.nearest) (encounters_of draft seed k mols) }
    ensures serials { (draft : Draft) (seed k low next : ℕ) (mols : List Mol) → draft.nearest ≡ false → Ascend low next mols
        → AreInOrder (candidates_of draft seed k mols) }
{}
