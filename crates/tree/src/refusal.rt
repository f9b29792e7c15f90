// The refusals, one enum, with document 01's numbers.
ghost use Rattle.std.specs.Prelude.{◌≡◌};
ghost use Rattle.tree.specs.Replies.{number_of, Decodes};

use std::error::Error;
use std::fmt;

#[derive(Clone, Copy, Debug, PartialEq, Eq, PartialOrd, Ord)]
pub enum Refusal {
    FileTooLong = 1,
    Header = 2,
    Context = 3,
    Count = 4,
    Body = 5,
    Numbers = 6,
    Operands = 7,
    Order = 8,
    Empty = 9,
    Output = 10,
    Depth = 11,
    Short = 12,
    NotPlain = 13,
    Tokens = 14,
    NoReading = 15,
    TooLarge = 16,
    NoExpression = 17,
    Replaced = 18,
    Columns = 19,
    Entries = 20,
    EntryNode = 21,
    EntryEnds = 22,
}

impl Refusal {
    pub fn number(self) -> u16
        ensures { result ≡ number_of self }
    {
        self as u16
    }
}

impl From<Refusal> for u16 {
    ghost from_gives = { λ e n. n ≡ number_of e };

    fn from(refusal: Refusal) -> u16 {
        refusal.number()
    }
}

impl TryFrom<u16> for Refusal {
    type Error = u16;

    ghost try_from_gives = { Decodes };

    fn try_from(number: u16) -> Result<Self, u16> {
        match number {
            1 => Ok(Refusal::FileTooLong),
            2 => Ok(Refusal::Header),
            3 => Ok(Refusal::Context),
            4 => Ok(Refusal::Count),
            5 => Ok(Refusal::Body),
            6 => Ok(Refusal::Numbers),
            7 => Ok(Refusal::Operands),
            8 => Ok(Refusal::Order),
            9 => Ok(Refusal::Empty),
            10 => Ok(Refusal::Output),
            11 => Ok(Refusal::Depth),
            12 => Ok(Refusal::Short),
            13 => Ok(Refusal::NotPlain),
            14 => Ok(Refusal::Tokens),
            15 => Ok(Refusal::NoReading),
            16 => Ok(Refusal::TooLarge),
            17 => Ok(Refusal::NoExpression),
            18 => Ok(Refusal::Replaced),
            19 => Ok(Refusal::Columns),
            20 => Ok(Refusal::Entries),
            21 => Ok(Refusal::EntryNode),
            22 => Ok(Refusal::EntryEnds),
            _ => Err(number),
        }
    }
}

impl fmt::Display for Refusal {
    fn fmt<W: fmt::Write>(&self, f: &mut fmt::Formatter<W>) -> fmt::Result {
        f.write_str(match self {
            Refusal::FileTooLong => "the tree file is longer than 65,536 bytes",
            Refusal::Header => "a header number is malformed",
            Refusal::Context => "the context is above 3",
            Refusal::Count => "the count is 0 or above 4,096, or a table is shorter",
            Refusal::Body => "a body number is malformed, or bytes follow the last one",
            Refusal::Numbers => "a form, attribute, detail or symbol number is not allowed",
            Refusal::Operands => "an operand is absent, forbidden, or of the wrong class",
            Refusal::Order => "an operand is not above its owner, or a node is not owned once",
            Refusal::Empty => "a path type has no segment, or a bound list is empty",
            Refusal::Output => "a closure with a written output has no plain block",
            Refusal::Depth => "a path holds more than 128 nodes",
            Refusal::Short => "a lent buffer is too short",
            Refusal::NotPlain => "the tree is not plain, or the context has no writer",
            Refusal::Tokens => "a token list is too long, or holds no token",
            Refusal::NoReading => "the token list has no reading",
            Refusal::TooLarge => "the reading needs too many nodes or levels",
            Refusal::NoExpression => "the named node is no expression",
            Refusal::Replaced => "the result has too many nodes, or breaks a rule",
            Refusal::Columns => "a restored number is outside 0 to 65,535",
            Refusal::Entries => "more than three entries",
            Refusal::EntryNode => "an entry's node is no Binary, or is entered twice",
            Refusal::EntryEnds => "lowest above highest, or highest above 27",
        })
    }
}

impl Error for Refusal {}
