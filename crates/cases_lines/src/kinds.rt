// The kinds of a line or a record as a case names them: by a letter, small by the rules of SP3-d, capital by those of SP3-c.
use header::Rules;

// The lines of a file in their order, then the rows and notes of its epochs, and the end.
#[derive(Clone, Copy, PartialEq, Eq)]
pub(crate) enum Kind {
    First,
    Second,
    Satellites,
    MoreSatellites,
    Accuracies,
    Descriptor,
    Characters,
    Bases,
    Floats,
    Integers,
    Comment,
    Epoch,
    Position,
    Velocity,
    PositionNote,
    VelocityNote,
    End,
    // not written: the kind of a line is asked
    Asked,
}

// A letter that stands for no kind.
#[derive(Clone, Copy, Debug)]
pub(crate) struct NoKind;

impl TryFrom<u8> for Kind {
    type Error = NoKind;

    fn try_from(letter: u8) -> Result<Kind, NoKind> {
        match letter.to_ascii_lowercase() {
            b'a' => Ok(Kind::First),
            b'b' => Ok(Kind::Second),
            b'c' => Ok(Kind::Satellites),
            b'd' => Ok(Kind::MoreSatellites),
            b'e' => Ok(Kind::Accuracies),
            b'f' => Ok(Kind::Descriptor),
            b'g' => Ok(Kind::Characters),
            b'h' => Ok(Kind::Bases),
            b'i' => Ok(Kind::Floats),
            b'j' => Ok(Kind::Integers),
            b'k' => Ok(Kind::Comment),
            b'l' => Ok(Kind::Epoch),
            b'm' => Ok(Kind::Position),
            b'n' => Ok(Kind::Velocity),
            b'o' => Ok(Kind::PositionNote),
            b'p' => Ok(Kind::VelocityNote),
            b'q' => Ok(Kind::End),
            b'z' => Ok(Kind::Asked),
            _ => Err(NoKind),
        }
    }
}

// The rules that a letter asks for.
pub(crate) fn rules_of(letter: u8) -> Rules {
    if letter.is_ascii_uppercase() {
        Rules::c()
    } else {
        Rules::d()
    }
}
