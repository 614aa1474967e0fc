ghost use Rattle.std.specs.Prelude.{◌≡◌};
ghost use Rattle.smol_types.specs.Fault.{need_text, kind_text};

/// A statement that a configuration can't do without.
#[derive(Clone, Copy, Debug, PartialEq, Eq)]
pub enum Need {
    Dim,
    /// The walls of the axis of this number.
    Boundaries(u8),
    TimeStop,
    TimeStep,
    /// A point inside a compartment.
    Point,
}

/// Why a line of a configuration, or the whole of it, is refused.
#[derive(Clone, Copy, Debug, PartialEq, Eq)]
pub enum Kind {
    UnknownStatement,
    UnknownName,
    RepeatedName,
    WrongWordCount,
    NotNumber,
    TooFine,
    OutOfRange,
    Missing(Need),
    RepeatedStatement,
    BadOrder,
    OpenBlock,
    BadFace,
    BadAction,
    BadJump,
    BadReaction,
    ProbabilitySum,
    BadTiming,
    UnknownCommand,
    UnknownOutlet,
    TooMany,
    OutsideWalls,
    NotInProfile,
    BadByte,
    OpenComment,
    TooLong,
}

impl Need {
    /// What is missing, in words.
    pub fn text(self) -> &'static str
        ensures { result.now ≡ need_text self }
    {
        match self {
            Need::Dim => "dim is missing",
            Need::Boundaries(0) => "boundaries x is missing",
            Need::Boundaries(1) => "boundaries y is missing",
            Need::Boundaries(_) => "boundaries z is missing",
            Need::TimeStop => "time_stop is missing",
            Need::TimeStep => "time_step is missing",
            Need::Point => "point is missing",
        }
    }
}

impl Kind {
    /// The fault in words, as it is printed behind the line's number.
    pub fn text(self) -> &'static str
        ensures { result.now ≡ kind_text self }
    {
        match self {
            Kind::UnknownStatement => "unknown statement",
            Kind::UnknownName => "unknown name",
            Kind::RepeatedName => "name already used",
            Kind::WrongWordCount => "wrong number of words",
            Kind::NotNumber => "not a number",
            Kind::TooFine => "number too fine",
            Kind::OutOfRange => "out of range",
            Kind::Missing(need) => need.text(),
            Kind::RepeatedStatement => "statement given twice",
            Kind::BadOrder => "statement out of place",
            Kind::OpenBlock => "block not closed",
            Kind::BadFace => "not a face",
            Kind::BadAction => "not an action",
            Kind::BadJump => "bad jump",
            Kind::BadReaction => "bad reaction",
            Kind::ProbabilitySum => "probabilities exceed 1",
            Kind::BadTiming => "bad timing",
            Kind::UnknownCommand => "unknown command",
            Kind::UnknownOutlet => "unknown output file",
            Kind::TooMany => "too many",
            Kind::OutsideWalls => "outside the walls",
            Kind::NotInProfile => "not in this profile",
            Kind::BadByte => "byte not allowed",
            Kind::OpenComment => "comment not closed",
            Kind::TooLong => "file too long",
        }
    }
}

/// A configuration is refused, or memory ran out over it.
#[derive(Clone, Copy, Debug, PartialEq, Eq)]
pub enum ConfigFault {
    /// The line of this number, counted from 1, is refused. Line 0 stands for the whole.
    At { line: u32, kind: Kind },
    OutOfMemory,
}
