ghost use Rattle.std.specs.Prelude.{◌≡◌, Some};
ghost use Rattle.source.specs.Faults.{number_of, word_of};

use std::error::Error;
use std::fmt;

// Why packed bytes cannot be read on.
#[derive(Clone, Copy, Debug, PartialEq, Eq, Hash)]
pub enum Fault {
    Cut = 1,
    UnknownTag,
    WrongLength,
    UnknownKind,
}

impl Fault {
    // The number by which the format's description calls it.
    pub fn number(self) -> u8
        ensures { result ≡ number_of self }
    {
        self as u8
    }

    pub fn word(self) -> &'static str
        ensures { result.now ≡ word_of self }
    {
        match self {
            Fault::Cut => "Cut",
            Fault::UnknownTag => "UnknownTag",
            Fault::WrongLength => "WrongLength",
            Fault::UnknownKind => "UnknownKind",
        }
    }
}

// Writes the word.
impl fmt::Display for Fault {
    ghost output = { λ f. Some (word_of f) };

    fn fmt<W: fmt::Write>(&self, f: &mut fmt::Formatter<W>) -> fmt::Result {
        f.write_str(self.word())
    }
}

impl Error for Fault {}
