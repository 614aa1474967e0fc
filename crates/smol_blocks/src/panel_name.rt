//! The name of a panel: the last word of its line, or one by the number of panels before it.
ghost use Rattle.std.specs.Prelude.{◌≡◌, ◌≤◌, ◌++◌, ◌∷◌, ◌==◌, [], length, false, Ok, Err, IfOk, OnOk, string_bytes};
ghost use Rattle.std.specs.Result.{IsOkAnd};
ghost use Rattle.smol_types.specs.declared.fault.Kind.{Kind as TheKind};
ghost use Rattle.smol_line.specs.declared.refusal.Refusal.TheVariants.{At};
ghost use Rattle.smol_text.specs.Reading.{words_of};
ghost use Rattle.smol_line.specs.Words.{word_at};
ghost use Rattle.smol_blocks.specs.Panel.{default_name, name_in, plain_count};

use smol_line::{NameSet, Refusal, new_name_in, word_at};
use smol_text::StatedLine;
use smol_types::Kind;
use std::alloc::{AllocError, Global};

// The name of a panel behind so many.
#[tactic(auto, unfolding(crate::specs::Panel::default_name))]
fn default_name(alloc: Global, count: usize) -> Result<String, AllocError>
    ensures { IfOk result (λ name. string_bytes name ≡ default_name count) }
{
    format!(in alloc; "rect{count}")
}

// Adds the name of a panel whose line gives none.
#[tactic(auto, unfolding(crate::specs::Panel::name_in))]
fn add_default(
    alloc: Global,
    names: &mut NameSet,
    dims: u8,
    line: &StatedLine<'_>,
) -> Result<(), Refusal>
    requires { length (words_of line.now) ≡ plain_count dims }
    ensures added { OnOk result (names.new ≡ names.old ++ default_name (length names.old) ∷ []) }
    ensures accepted { OnOk result (name_in dims names.old line.now ≡ Ok (default_name (length names.old))) }
    ensures refused { (kind : TheKind) → result ≡ Err (At kind) → name_in dims names.old line.now ≡ Err kind }
{
    let name = default_name(alloc, names.len())?;
    if names.number_of(name.as_bytes()).is_some() {
        return Err(Refusal::At(Kind::RepeatedName));
    }
    names.add(alloc, name.as_str())?;
    Ok(())
}

// Adds the name that the line of a panel gives.
#[tactic(auto, unfolding(crate::specs::Panel::name_in))]
fn add_given(
    alloc: Global,
    names: &mut NameSet,
    dims: u8,
    line: &StatedLine<'_>,
) -> Result<(), Refusal>
    requires dims { dims ≤ 3 }
    requires named { (length (words_of line.now) == plain_count dims) ≡ false }
    ensures added { OnOk result (names.new ≡ names.old ++ word_at line.now (plain_count dims) ∷ []) }
    ensures accepted { OnOk result (name_in dims names.old line.now ≡ Ok (word_at line.now (plain_count dims))) }
    ensures refused { (kind : TheKind) → result ≡ Err (At kind) → name_in dims names.old line.now ≡ Err kind }
{
    let name = new_name_in(
        names,
        word_at(
            line,
            3 + usize::from(dims) + usize::from(dims.saturating_sub(1)),
        ),
    )?;
    names.add(alloc, name)?;
    Ok(())
}

/// Adds the name of the panel of a line.
pub fn add_name(
    alloc: Global,
    names: &mut NameSet,
    dims: u8,
    line: &StatedLine<'_>,
) -> Result<(), Refusal>
    requires least { 1 ≤ dims }
    requires most { dims ≤ 3 }
    ensures added { OnOk result (IsOkAnd (name_in dims names.old line.now) (λ name. names.new ≡ names.old ++ name ∷ [])) }
    ensures refused { (kind : TheKind) → result ≡ Err (At kind) → name_in dims names.old line.now ≡ Err kind }
{
    if line.len() == 2 * usize::from(dims) + 2 {
        add_default(alloc, names, dims, line)
    } else {
        add_given(alloc, names, dims, line)
    }
}
