//! What the grammar of decimals says of the numbers that are read.
ghost use Rattle.std.specs.Prelude.{◌≡◌, ◌⊎◌, ℕ, List};
ghost use Rattle.smol_num.specs.declared.num_fault.NumFault.TheVariants.{NotNumber};
ghost use Rattle.smol_num.specs.Decimal.{decimal_of};
ghost use Rattle.smol_num.specs.Grammar.{Numeral, Spells, number_of};

/// A law on the decimals that `read_decimal` reads: a word that spells a numeral is that numeral's number,
/// and a word that spells none is no number. It does nothing when it is called.
pub fn numerals_are_read()
    ensures spelled { (numeral : Numeral) → (word : List ℕ) → (places : ℕ) → Spells numeral word
        → decimal_of word places ≡ number_of numeral places }
    ensures others { (word : List ℕ) → (places : ℕ)
        → (decimal_of word places ≡ Err NotNumber) ⊎ ((numeral : Numeral) × Spells numeral word) }
{}
