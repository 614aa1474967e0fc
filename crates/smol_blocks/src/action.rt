//! `action W1 W2 ACTION [NEW]`: what faces of a surface's panels do to species, and what they make of them.
ghost use Rattle.std.specs.Prelude.{◌≡◌, ◌<◌, ◌≤◌, length, IfOk, IfSome};
ghost use Rattle.std.specs.Result.{result_err};
ghost use Rattle.smol_types.specs.Limits.{most_species};
ghost use Rattle.smol_blocks.specs.Action.{action_in, action_named, action_words, may_change, new_in};

use crate::faces::{Faces, faces_in, other_word};
use smol_line::{Chosen, NameSet, chosen_in, species_word_in, spells, unless, word_at};
use smol_text::StatedLine;
use smol_types::{Action, Kind};

/// What faces do to the species chosen.
#[derive(Clone, Copy, Debug, PartialEq, Eq)]
pub struct Acting {
    pub faces: Faces,
    pub who: Chosen,
    pub action: Action,
    /// The species, by its number, that the faces make of them.
    pub new: Option<u16>,
}

// What a face does, by its name or the first letter of it.
#[tactic(auto, unfolding(crate::specs::Action::action_named))]
fn action_named(word: &[u8]) -> Result<Action, Kind>
    ensures { result ≡ action_named word.now }
{
    if spells(word, "reflect") || spells(word, "r") {
        Ok(Action::Reflect)
    } else if spells(word, "absorb") || spells(word, "a") {
        Ok(Action::Absorb)
    } else if spells(word, "transmit") || spells(word, "t") {
        Ok(Action::Transmit)
    } else if spells(word, "jump") || spells(word, "j") {
        Ok(Action::Jump)
    } else {
        Err(Kind::BadAction)
    }
}

// Whether a molecule is left to be made into something by a face that does this.
fn may_change(action: Action) -> bool
    ensures { result ≡ may_change action }
{
    match action {
        Action::Absorb => false,
        Action::Reflect | Action::Jump | Action::Transmit => true,
    }
}

// A line has four words, or five.
fn action_words(line: &StatedLine<'_>) -> Result<(), Kind>
    ensures { result_err result ≡ action_words line.now }
{
    unless(line.len() == 4 || line.len() == 5, Kind::WrongWordCount)
}

// The species that a face makes of those on which it does this.
#[tactic(auto, unfolding(crate::specs::Action::new_in))]
fn new_in(species: &NameSet, action: Action, line: &StatedLine<'_>) -> Result<Option<u16>, Kind>
    requires few { length species.now ≤ most_species }
    ensures rule { result ≡ new_in species.now action line.now }
    ensures within { IfOk result (λ new. IfSome new (λ number. number < length species.now)) }
{
    if line.len() == 5 {
        unless(may_change(action), Kind::BadAction)?;
        Ok(Some(species_word_in(species, word_at(line, 4))?))
    } else {
        Ok(None)
    }
}

/// What a line says of these species.
#[tactic(auto, unfolding(crate::specs::Action::action_in))]
pub fn action_in(species: &NameSet, line: &StatedLine<'_>) -> Result<Acting, Kind>
    requires few { length species.now ≤ most_species }
    ensures rule { result ≡ action_in species.now line.now }
    ensures ordered { IfOk result (λ acting. acting.who.first ≤ acting.who.end) }
    ensures within { IfOk result (λ acting. acting.who.end ≤ length species.now) }
    ensures known { IfOk result (λ acting. IfSome acting.new (λ number. number < length species.now)) }
{
    action_words(line)?;
    let faces = faces_in(word_at(line, 1), word_at(line, 2))?;
    let who = chosen_in(species, other_word(word_at(line, 1), word_at(line, 2)))?;
    let action = action_named(word_at(line, 3))?;
    let new = new_in(species, action, line)?;
    Ok(Acting {
        faces,
        who,
        action,
        new,
    })
}
