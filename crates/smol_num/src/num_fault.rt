/// Why a word is refused where a number is due.
#[derive(Clone, Copy, Debug, PartialEq, Eq)]
pub enum NumFault {
    /// It spells no number.
    NotNumber,
    /// It spells a number with more places than are kept.
    TooFine,
    /// It spells a number that is out of range.
    TooLarge,
}
