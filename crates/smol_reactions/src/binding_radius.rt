//! `binding_radius REACTION V`: how far apart the two reactants of a reaction may be.
ghost use Rattle.std.specs.Prelude.{◌≡◌, ◌≤◌, ◌<◌, length, Ok, IfOk};
ghost use Rattle.smol_types.specs.Limits.{most_reactions};
ghost use Rattle.smol_reactions.specs.Reaction.{reaction_names_of};
ghost use Rattle.smol_reactions.specs.BindingRadius.{binding_radius_in, distance_in};

use smol_line::{NameSet, decimal_in, number_in, unless, word_at, word_count};
use smol_num::Micro;
use smol_text::StatedLine;
use smol_types::{Kind, Reaction};

/// How long a distance may be, in micros.
const LONGEST: i64 = 1_000_000_000;

/// A distance in micros.
pub fn distance_in(word: &[u8]) -> Result<i64, Kind>
    ensures { result ≡ distance_in word.now }
{
    decimal_in(6, 0, LONGEST, word)
}

/// The number of a reaction and its radius, beside these reactions, which have these names.
#[tactic(auto, unfolding(crate::specs::BindingRadius::binding_radius_in))]
pub fn judge(
    names: &NameSet,
    reactions: &[Reaction],
    line: &StatedLine<'_>,
) -> Result<(u16, Micro), Kind>
    requires names { names.now ≡ reaction_names_of reactions.now }
    requires few { length reactions.now ≤ most_reactions }
    ensures rule { result ≡ binding_radius_in reactions.now line.now }
    ensures within { IfOk result (λ given. given.0 < length reactions.now) }
{
    word_count(3, line)?;
    let number = number_in(names, word_at(line, 1))?;
    unless(reactions[usize::from(number)].order == 2, Kind::BadReaction)?;
    let radius = distance_in(word_at(line, 2))?;
    Ok((number, Micro(radius)))
}
