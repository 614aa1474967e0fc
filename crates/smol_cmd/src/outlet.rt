//! A word that names an outlet: standard output, standard error or an output file.
ghost use Rattle.std.specs.Prelude.{◌≡◌, ◌≤◌, length};
ghost use Rattle.smol_types.specs.Limits.{most_outputs};
ghost use Rattle.smol_cmd.specs.Outlet.{outlet_in};

use smol_line::{NameSet, spells};
use smol_types::Kind;

/// The outlet that a word names, where output files have these names.
#[tactic(auto, unfolding(crate::specs::Outlet::outlet_in))]
pub fn outlet_in(outputs: &NameSet, word: &[u8]) -> Result<u32, Kind>
    requires { length outputs.now ≤ most_outputs }
    ensures { result ≡ outlet_in outputs.now word.now }
{
    if spells(word, "stdout") {
        return Ok(0);
    }
    if spells(word, "stderr") {
        return Ok(1);
    }
    match outputs.number_of(word) {
        None => Err(Kind::UnknownOutlet),
        Some(number) => Ok(2 + number as u32),
    }
}
