//! Whether two molecules may react.
ghost use Rattle.std.specs.Prelude.{◌≡◌, length};
ghost use Rattle.smol_types.specs.Reactions.{IsReaction, reacts_together};
ghost use Rattle.smol_meaning.specs.Encounters.{may_react};
ghost use Rattle.smol_pairs.specs.Ranked.{IsRanked, encounter_of};

use crate::near::are_near;
use crate::ranked::Ranked;
use smol_sheets::Panels;
use smol_streams::Streams;
use smol_types::Reaction;

/// Whether two molecules may react by the reaction of this number in step k. The word is drawn last, and only for
/// molecules that are near and not hidden.
pub fn may_react(
    panels: &Panels,
    streams: &mut Streams,
    reaction: &Reaction,
    number: u16,
    a: &Ranked,
    b: &Ranked,
    k: u32,
) -> bool
    requires reaction { IsReaction panels.now.dims (length panels.now.species) reaction.now }
    requires a { IsRanked panels.now a.now }
    requires b { IsRanked panels.now b.now }
    ensures value { result ≡ may_react panels.now streams.old k reaction.now (encounter_of a.now b.now number) }
    ensures seed { streams.new ≡ streams.old }
{
    reacts_together(a.mol.species, b.mol.species, reaction.reactants.as_slice())
        && are_near(reaction.radius, &a.mol.place, &b.mol.place)
        && !panels.are_hidden(&a.mol, &b.mol)
        && u64::from(streams.pair_word((a.rank as u32, b.rank as u32), k, number))
            < reaction.threshold.0
}

// Whether a reaction has these two species as its reactants, in either order.
fn reacts_together(a: u16, b: u16, reactants: &[u16]) -> bool
    ensures { result ≡ reacts_together a b reactants.now }
{
    match reactants {
        [one, two] => (*one == a && *two == b) || (*one == b && *two == a),
        _ => false,
    }
}
