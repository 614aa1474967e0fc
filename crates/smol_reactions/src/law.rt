//! Laws of what lines say of reactions. The functions do nothing: each law is a contract.
ghost use Rattle.std.specs.Prelude.{◌≡◌, ◌≤◌, ◌∷◌, ℕ, All, List, Option, Ok, length, sum_by, true};
ghost use Rattle.smol_text.specs.Reading.{Stated};
ghost use Rattle.smol_types.specs.declared.reaction.Reaction.{Reaction};
ghost use Rattle.smol_types.specs.Limits.{certain};
ghost use Rattle.smol_types.specs.Reactions.{share_of};
ghost use Rattle.smol_line.specs.Probability.{whole_chance};
ghost use Rattle.smol_reactions.specs.ReactionSaid.{ReactionSaid};
ghost use Rattle.smol_reactions.specs.Content.{are_shared, chance_sum, chances_of, reactions_of};
ghost use Rattle.smol_reactions.specs.Rates.{HasRate, all_rated, are_enough};
ghost use Rattle.smol_reactions.specs.Sound.{AreReactions};
ghost use Rattle.smol_reactions.specs.Statements.{binding_radius_said, product_placement_said, reaction_probability_said, reaction_said};

/// Where the probabilities of a species' first-order reactions are no more than 1 together, these reactions share the random words.
#[tactic(auto, using(crate::proofs::Chances::shares_fit))]
pub fn probabilities_share_the_words()
    ensures { (species : ℕ) (said : List ReactionSaid) → chance_sum species (reactions_of said) (chances_of said) ≤ whole_chance
        → sum_by (share_of species) (reactions_of said) ≤ certain }
{}

/// Where each first-order reaction has a rate, these reactions share the random words, whatever the rates and the time of a step, and
/// no probability is given that could be too much.
pub fn rates_share_the_words()
    ensures words { (count step : ℕ) (reactions : List Reaction) → All HasRate reactions → are_enough count (all_rated step reactions) ≡ true }
    ensures chances { (count step : ℕ) (said : List ReactionSaid) → All HasRate (reactions_of said)
        → are_shared count (all_rated step (reactions_of said)) (chances_of said) ≡ true }
{}

/// What lines without a fault say of reactions is sound: a line more keeps it so.
pub fn lines_keep_reactions_sound()
    ensures reaction { (dims : Option ℕ) (species : List (List ℕ)) (said : List ReactionSaid) (line : Stated) (more : ReactionSaid)
        → reaction_said species said line ≡ Ok more → AreReactions dims (length species) said
        → AreReactions dims (length species) (more ∷ said) }
    ensures binding_radius { (dims : Option ℕ) (count : ℕ) (said : List ReactionSaid) (line : Stated) (more : ReactionSaid)
        → binding_radius_said said line ≡ Ok more → AreReactions dims count said → AreReactions dims count (more ∷ said) }
    ensures reaction_probability { (dims : Option ℕ) (count : ℕ) (said : List ReactionSaid) (line : Stated) (more : ReactionSaid)
        → reaction_probability_said said line ≡ Ok more → AreReactions dims count said → AreReactions dims count (more ∷ said) }
    ensures product_placement { (dims : Option ℕ) (count : ℕ) (species : List (List ℕ)) (said : List ReactionSaid)
        (line : Stated) (more : ReactionSaid)
        → product_placement_said dims species said line ≡ Ok more → AreReactions dims count said → AreReactions dims count (more ∷ said) }
{}
