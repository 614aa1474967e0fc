//! Words that name faces of panels.
ghost use Rattle.std.specs.Prelude.{◌≡◌};
ghost use Rattle.smol_blocks.specs.Faces.{face_in, faces_in, faces_named, other_word};

use smol_line::spells;
use smol_types::{Face, Kind};

/// One face of a panel, or both.
#[derive(Clone, Copy, Debug, PartialEq, Eq)]
pub enum Faces {
    Front,
    Back,
    Both,
}

// The face or the faces that a word names.
#[tactic(auto, unfolding(crate::specs::Faces::faces_named))]
fn faces_named(word: &[u8]) -> Option<Faces>
    ensures { result ≡ faces_named word.now }
{
    if spells(word, "front") {
        Some(Faces::Front)
    } else if spells(word, "back") {
        Some(Faces::Back)
    } else if spells(word, "both") {
        Some(Faces::Both)
    } else {
        None
    }
}

/// The one face that a word names.
pub fn face_in(word: &[u8]) -> Result<Face, Kind>
    ensures { result ≡ face_in word.now }
{
    match faces_named(word) {
        Some(Faces::Front) => Ok(Face::Front),
        Some(Faces::Back) => Ok(Face::Back),
        Some(Faces::Both) => Err(Kind::BadFace),
        None => Err(Kind::BadFace),
    }
}

/// The faces that one of two words names, the first one where both do.
pub fn faces_in(first: &[u8], second: &[u8]) -> Result<Faces, Kind>
    ensures { result ≡ faces_in first.now second.now }
{
    match faces_named(first) {
        Some(faces) => Ok(faces),
        None => faces_named(second).ok_or(Kind::BadFace),
    }
}

/// The other one of the two words.
pub fn other_word<'a>(first: &'a [u8], second: &'a [u8]) -> &'a [u8]
    ensures { result.now ≡ other_word first.now second.now }
{
    match faces_named(first) {
        Some(_) => second,
        None => first,
    }
}
