//! What is printed.
ghost use Rattle.std.specs.Prelude.{◌≡◌, IfOk, Some};
ghost use Rattle.world_model.specs.Lines.{idle_unless, refusal_values, texts_of};
ghost use Rattle.world_core.specs.Printed.{told_values};

use crate::words::{answer_lines, broken_lines, refused_lines};
use ejson_codec::Lines;
use ejson_value::Mem;
use std::alloc::Global;
use std::marker::Model;
use world_model::Answer;

/// What there is to print.
#[derive(Drop)]
pub(crate) enum What {
    /// What is answered to an act.
    Answer(Answer),
    /// A client refuses a text for this reason.
    Broken(u8),
    /// An operation is refused with this code.
    Refused(u16),
    Lines(Lines),
}

/// What an event prints. It holds no line that `lines` can make, so that an event that was made needs no
/// memory to say so. A contract sees the lines.
#[derive(Drop)]
pub struct Printed {
    what: What,
}

impl Model for Printed {
    ghost use Rattle.std.specs.Prelude.{List, ℕ};

    ghost Value = { List (List ℕ) };

    ghost use Rattle.world_core.specs.Printed.{texts_in};

    ghost view = { λ a. texts_in a.what };
}

impl Printed {
    /// Of what is asked of a client: nothing where it is done.
    pub fn asked(done: bool) -> Printed
        ensures { result ≡ texts_of (idle_unless done) }
    {
        let answer = if done { Answer::Done } else { Answer::Idle };
        Printed {
            what: What::Answer(answer),
        }
    }

    /// Of an act that is answered so. A text that the client took may be refused, for this reason.
    pub fn told(answer: Answer, refusal: Option<u8>) -> Printed
        ensures { result ≡ texts_of (told_values answer refusal) }
    {
        let what = match (answer, refusal) {
            (Answer::Done, Some(number)) => What::Broken(number),
            _ => What::Answer(answer),
        };
        Printed { what }
    }

    /// Of an operation that is refused with this code.
    pub fn refused(code: u16) -> Printed
        ensures { result ≡ texts_of (refusal_values (Some code)) }
    {
        Printed {
            what: What::Refused(code),
        }
    }

    /// These lines.
    pub fn of(lines: Lines) -> Printed
        ensures { result ≡ lines }
    {
        Printed {
            what: What::Lines(lines),
        }
    }

    /// The lines.
    pub fn lines(self, alloc: Global) -> Result<Lines, Mem>
        ensures { IfOk result (λ lines. lines ≡ self) }
    {
        match self.what {
            What::Answer(answer) => answer_lines(alloc, answer),
            What::Broken(number) => broken_lines(alloc, number),
            What::Refused(code) => refused_lines(alloc, code),
            What::Lines(lines) => Ok(lines),
        }
    }
}
