//! Laws of expanded texts. The functions do nothing: the laws are their contracts.
ghost use Rattle.std.specs.Prelude.{◌≡◌, ◌<◌, ◌≤◌, ℕ, List, length, true, Some, Err, IfOk};
ghost use Rattle.smol_text.specs.Reading.{statements_of};
ghost use Rattle.smol_macro.specs.declared.expand_fault.MacroKind.TheVariants.{TooLong};
ghost use Rattle.smol_macro.specs.Refusal.{at};
ghost use Rattle.smol_macro.specs.Files.{Contents};
ghost use Rattle.smol_macro.specs.Including.{expanded};
ghost use Rattle.smol_macro.specs.Plain.{is_plain, SaysTheSame};

/// A file without directives is refused where it has more than 4 MiB, or by the first fault of its lines, with the line
/// and the kind that it has by itself. Otherwise its expanded text makes the same statements, each in the same line.
pub fn plain_files_say_the_same()
    ensures too_long { (contents : Contents) (name bytes : List ℕ) → contents name ≡ Some bytes → 4194304 < length bytes → expanded contents name ≡ Err (at 0 TooLong) }
    ensures same { (contents : Contents) (name bytes : List ℕ) → contents name ≡ Some bytes → length bytes ≤ 4194304 → is_plain bytes ≡ true → SaysTheSame (statements_of bytes) (expanded contents name) }
{}

/// An expanded text has at most 4 MiB, whatever the files are.
pub fn expanded_texts_are_short()
    ensures { (contents : Contents) (name : List ℕ) → IfOk (expanded contents name) (λ text. length text ≤ 4194304) }
{}
