//! Words that name an axis.
ghost use Rattle.std.specs.Prelude.{◌≡◌, ◌<◌, IfOk, IfSome};
ghost use Rattle.smol_line.specs.Axis.{axis_in, axis_named};

use crate::words::spells;
use smol_types::Kind;

// The axis that a word names.
#[tactic(auto, unfolding(crate::specs::Axis::axis_named))]
fn axis_named(word: &[u8]) -> Option<u8>
    ensures value { result ≡ axis_named word.now }
    ensures within { IfSome result (λ axis. axis < 3) }
{
    if spells(word, "x") || spells(word, "0") {
        Some(0)
    } else if spells(word, "y") || spells(word, "1") {
        Some(1)
    } else if spells(word, "z") || spells(word, "2") {
        Some(2)
    } else {
        None
    }
}

/// The axis in use that a word names.
pub fn axis_in(dims: u8, word: &[u8]) -> Result<u8, Kind>
    ensures value { result ≡ axis_in dims word.now }
    ensures within { IfOk result (λ axis. axis < 3) }
    ensures in_use { IfOk result (λ axis. axis < dims) }
{
    match axis_named(word) {
        None => Err(Kind::UnknownName),
        Some(axis) if axis < dims => Ok(axis),
        Some(_) => Err(Kind::OutOfRange),
    }
}
