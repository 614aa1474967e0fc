//! `reaction_probability REACTION P`: how likely a reaction is, as the share of the random words that let it happen.
ghost use Rattle.std.specs.Prelude.{◌≡◌, ◌≤◌, ◌<◌, length, Ok, IfOk};
ghost use Rattle.smol_types.specs.Limits.{most_reactions};
ghost use Rattle.smol_reactions.specs.Reaction.{reaction_names_of};
ghost use Rattle.smol_reactions.specs.ReactionProbability.{reaction_probability_in};

use smol_line::{NameSet, chance_in, number_in, word_at, word_count};
use smol_text::StatedLine;
use smol_types::{Kind, Reaction};

/// The number of a reaction and its probability in billionths, beside reactions of these names.
#[tactic(auto, unfolding(crate::specs::ReactionProbability::reaction_probability_in))]
pub fn judge(
    names: &NameSet,
    reactions: &[Reaction],
    line: &StatedLine<'_>,
) -> Result<(u16, u32), Kind>
    requires names { names.now ≡ reaction_names_of reactions.now }
    requires few { length reactions.now ≤ most_reactions }
    ensures rule { result ≡ reaction_probability_in reactions.now line.now }
    ensures within { IfOk result (λ given. given.0 < length reactions.now) }
{
    word_count(3, line)?;
    let number = number_in(names, word_at(line, 1))?;
    let chance = chance_in(word_at(line, 2))?;
    Ok((number, chance))
}
