//! Why a tree or a text isn't an EJSON value.
ghost use Rattle.std.specs.Prelude.{◌≡◌};

use ejson_value::Mem;
use json::Invalid;
use std::error::Error;
use std::fmt;

/// Why a JSON tree is no EJSON value of this program: its first fault, in depth-first order.
#[derive(Clone, Copy, Debug)]
pub enum EjsonFault {
    /// A number that isn't whole, or not within ±(2^53 - 1).
    BadNumber = 1,
    /// A `$date` that isn't a number.
    BadDate = 2,
    /// A `$binary` that isn't canonical base64 (RFC 4648, section 4).
    BadBinary = 3,
    /// An `$escape` that isn't an object.
    BadEscape = 4,
    /// A form of EJSON that no value here has: `$InfNaN` or a regular expression.
    Unsupported = 5,
    /// A list, an object or a value of a user type at more than 32 levels.
    TooDeep = 6,
    /// A `$type` that isn't a text of 1 to 128 bytes.
    BadUser = 7,
}

impl EjsonFault {
    // The fault in words.
    fn words(&self) -> &'static str {
        match self {
            EjsonFault::BadNumber => "a number that isn't whole within 53 bits",
            EjsonFault::BadDate => "a $date that isn't a number",
            EjsonFault::BadBinary => "a $binary that isn't canonical base64",
            EjsonFault::BadEscape => "an $escape that isn't an object",
            EjsonFault::Unsupported => "a form of EJSON that isn't supported",
            EjsonFault::TooDeep => "lists, objects and values of user types nest too deep",
            EjsonFault::BadUser => "a $type that isn't a text of 1 to 128 bytes",
        }
    }
}

impl fmt::Display for EjsonFault {
    fn fmt<W: fmt::Write>(&self, f: &mut fmt::Formatter<W>) -> fmt::Result {
        f.write_str(self.words())
    }
}

impl Error for EjsonFault {}

/// Why a tree wasn't read.
#[derive(Clone, Copy, Debug)]
pub enum ReadFault {
    Ejson(EjsonFault),
    Memory,
}

impl ReadFault {
    // The fault in words.
    fn words(&self) -> &'static str {
        match self {
            ReadFault::Ejson(fault) => fault.words(),
            ReadFault::Memory => "out of memory",
        }
    }
}

impl fmt::Display for ReadFault {
    fn fmt<W: fmt::Write>(&self, f: &mut fmt::Formatter<W>) -> fmt::Result {
        f.write_str(self.words())
    }
}

impl Error for ReadFault {}

/// Why a text wasn't read.
#[derive(Clone, Copy, Debug)]
pub enum ParseFault {
    NotJson,
    Ejson(EjsonFault),
    Memory,
}

impl ParseFault {
    // The fault in words.
    fn words(&self) -> &'static str {
        match self {
            ParseFault::NotJson => "not JSON",
            ParseFault::Ejson(fault) => fault.words(),
            ParseFault::Memory => "out of memory",
        }
    }
}

impl fmt::Display for ParseFault {
    fn fmt<W: fmt::Write>(&self, f: &mut fmt::Formatter<W>) -> fmt::Result {
        f.write_str(self.words())
    }
}

impl Error for ParseFault {}

impl From<Mem> for ReadFault {
    ghost use Rattle.std.specs.Prelude.{◌≡◌};
    ghost use Rattle.ejson_codec.specs.declared.fault.ReadFault.TheVariants.{Memory};

    ghost from_gives = { λ _ e. e ≡ Memory };

    fn from(_: Mem) -> ReadFault {
        ReadFault::Memory
    }
}

impl From<ReadFault> for ParseFault {
    ghost use Rattle.std.specs.Prelude.{◌≡◌};
    ghost use Rattle.ejson_codec.specs.Faults.{parse_fault_of};

    ghost from_gives = { λ fault e. e ≡ parse_fault_of fault };

    fn from(fault: ReadFault) -> ParseFault {
        match fault {
            ReadFault::Ejson(fault) => ParseFault::Ejson(fault),
            ReadFault::Memory => ParseFault::Memory,
        }
    }
}

/// Why a text wasn't read without a tree.
#[derive(Clone, Copy)]
pub enum PlainFault {
    /// It has a form of EJSON or a fault, and is left to the reader of trees.
    NotPlain,
    Memory,
}

impl From<Mem> for PlainFault {
    fn from(_: Mem) -> PlainFault {
        PlainFault::Memory
    }
}

impl From<Invalid> for PlainFault {
    fn from(_: Invalid) -> PlainFault {
        PlainFault::NotPlain
    }
}
