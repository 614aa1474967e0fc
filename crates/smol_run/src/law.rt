//! Laws of the text that is made, and of files without directives. The functions do nothing: the laws are their contracts.
ghost use Rattle.std.specs.Prelude.{◌≡◌, ◌≤◌, ℕ, List, true, Some, IsOk};
ghost use Rattle.smol_types.specs.declared.fault.Kind.{Kind};
ghost use Rattle.smol_types.specs.Fault.{kind_text};
ghost use Rattle.smol_config.specs.Reader.{config_of};
ghost use Rattle.smol_macro.specs.declared.expand_fault.MacroKind.{MacroKind};
ghost use Rattle.smol_macro.specs.Refusal.{kind_text as macro_text};
ghost use Rattle.smol_macro.specs.Files.{Contents};
ghost use Rattle.smol_macro.specs.Including.{expanded};
ghost use Rattle.smol_macro.specs.Plain.{is_plain};
ghost use Rattle.smol_run.specs.Expanded.{kind_in, stated_in, TellsTheSame};
ghost use Rattle.smol_run.specs.Generated.{generated};

/// The text that `--make` runs is accepted, for each number of molecules that may be asked for.
pub fn made_texts_are_accepted()
    ensures { (n : ℕ) → 1 ≤ n → n ≤ 1000000 → IsOk (config_of (generated n)) }
{}

/// A file without directives has no expanded text exactly where the file itself is refused as too long or for a fault of its
/// lines, and is then refused with that line and kind. Otherwise it has as a configuration the content of its expanded text, or
/// the fault of that.
pub fn plain_files_mean_the_same()
    ensures same { (contents : Contents) (name file : List ℕ) → contents name ≡ Some file → is_plain file ≡ true
        → TellsTheSame file (stated_in file) (expanded contents name) }

    // Kinds of the same name are told in the same words.
    ensures words { (kind : MacroKind) (own : Kind) → kind_in kind ≡ Some own → kind_text own ≡ macro_text kind }
{}
