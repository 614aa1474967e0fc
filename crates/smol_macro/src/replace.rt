//! A line in which defined names are replaced.
ghost use Rattle.std.specs.Prelude.{◌≡◌, IfOk, IfErr};
ghost use Rattle.smol_macro.specs.Refusal.{RefusesLine};
ghost use Rattle.smol_macro.specs.Kept.{meanings_of};
ghost use Rattle.smol_macro.specs.Given.{within};
ghost use Rattle.smol_macro.specs.Meanings.{meant, replaced};

use crate::definitions::Definitions;
use crate::expand_fault::{ExpandFault, MacroKind};
use smol_text::first_separator;
use std::alloc::Global;

/// The most bytes that a line may come to, which are those of the whole text.
const MOST_BYTES: usize = 4_194_304;

/// What a piece between separators is replaced by.
fn meant<'a>(definitions: &'a Definitions, piece: &'a [u8]) -> &'a [u8]
    ensures { result.now ≡ meant (meanings_of definitions.now) piece.now }
{
    match definitions.meaning(piece) {
        Some(meaning) => meaning,
        None => piece,
    }
}

/// A line in which each word that is a defined name is replaced by what it stands for.
pub(crate) fn replace_names(
    alloc: Global,
    definitions: &Definitions,
    part: &[u8],
) -> Result<Vec<u8>, ExpandFault>
    ensures replaced { IfOk result (λ line. line.items ≡ replaced (meanings_of definitions.now) part.now) }
    ensures refused { IfErr result (λ fault. RefusesLine fault (within (replaced (meanings_of definitions.now) part.now))) }
{
    let mut line = Vec::new(alloc);
    let mut rest = part;
    loop {
        let size = first_separator(rest).unwrap_or(rest.len());
        let meaning = meant(definitions, &rest[..size]);
        if line.len() + meaning.len() > MOST_BYTES {
            return Err(ExpandFault::At {
                line: 0,
                kind: MacroKind::TooLong,
            });
        }
        line.extend_from_slice(meaning)?;
        if size >= rest.len() {
            return Ok(line);
        }
        line.push(rest[size])?;
        let behind = &rest[size..];
        rest = &behind[1..];
    }
}
