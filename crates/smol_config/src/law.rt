//! Laws of every text. The functions do nothing: each law is a contract.
ghost use Rattle.std.specs.Prelude.{◌≡◌, ◌≢◌, ℕ, All, IfErr, List, Ok};
ghost use Rattle.smol_types.specs.declared.draft.Draft.{Draft};
ghost use Rattle.smol_types.specs.declared.fault.Kind.TheVariants.{ProbabilitySum};
ghost use Rattle.smol_types.specs.Sound.{IsSound};
ghost use Rattle.smol_reactions.specs.Content.{reactions_of};
ghost use Rattle.smol_reactions.specs.Rates.{HasRate};
ghost use Rattle.smol_config.specs.Reactions.{reactions_said};
ghost use Rattle.smol_config.specs.Reader.{config_of};
ghost use Rattle.smol_config.specs.Said.{Said};
ghost use Rattle.smol_config.specs.Whole.{whole_in};

/// What an accepted text says is sound: numbers are in their ranges, names are known, coordinates lie between walls, and so on.
pub fn accepted_texts_are_sound()
    ensures { (text : List ℕ) (draft : Draft) → config_of text ≡ Ok draft → IsSound draft }
{}

/// A file whose first-order reactions all have rates is never refused because probabilities exceed 1, whatever the rates.
pub fn rates_never_exceed_1()
    ensures { (before : List Said) → All HasRate (reactions_of (reactions_said before))
        → IfErr (whole_in before) (λ fault. fault.kind ≢ ProbabilitySum) }
{}
