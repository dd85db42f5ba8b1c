//! Why the program gives no answer, and the status that it ends with.
ghost use Rattle.std.specs.Prelude.{◌≡◌, ◌≤◌, length};
ghost use Rattle.endings.specs.Refusal as rule;

use arrayvec::ArrayString;
use bean_book::BookCause;
use bean_load::LoadCause;
use itoa::Buffer;
use query_code::FileCause;
use query_files::TextCause;
use query_machine::RunCause;
use query_verifier::VerifierCause;
use std::alloc::AllocError;

/// Why words or input are refused, in the order in which a command looks for it.
#[derive(Clone, Copy, Debug, Drop, PartialEq, Eq)]
pub enum Cause {
    /// The words are no command.
    Words,
    /// A file or a ledger can't be read.
    Load(LoadCause),
    /// A text is no query that has a program.
    Text(TextCause),
    /// A file is no query file, or one that isn't accepted.
    File(VerifierCause),
    /// A ledger has more postings than a book holds.
    TooManyPostings,
    /// A ledger is outside the bounds of a program.
    OutsideBounds,
}

impl Cause {
    /// 2 where words or input are refused, 3 where they can't be read.
    fn status(self) -> u8
        ensures { result ≡ rule.status_by self }
    {
        match self {
            Cause::Words
            | Cause::Load(LoadCause::TooLarge | LoadCause::NotUtf8)
            | Cause::Text(_)
            | Cause::File(_)
            | Cause::TooManyPostings
            | Cause::OutsideBounds => 2,
            Cause::Load(LoadCause::Unreadable) => 3,
        }
    }

    /// The number that users see, or `words`.
    fn code(self) -> &'static str
        ensures is { result.now ≡ rule.code_by self }
        ensures short { length result.now ≤ 5 }
    {
        match self {
            Cause::Words => "words",
            Cause::Load(cause) => refusals::Cause::code(&cause),
            Cause::Text(cause) => refusals::Cause::code(&cause),
            Cause::File(cause) => refusals::Cause::code(&cause),
            Cause::TooManyPostings => refusals::Cause::code(&BookCause::TooManyPostings),
            Cause::OutsideBounds => refusals::Cause::code(&RunCause::OutsideBounds),
        }
    }

    /// The place that it names, in bytes: that of a query and of a query file does.
    fn place(self) -> Option<usize>
        ensures { result ≡ rule.place_by self }
    {
        match self {
            Cause::Text(cause) => refusals::Cause::place(&cause),
            Cause::File(cause) => refusals::Cause::place(&cause),
            _ => None,
        }
    }
}

/// Why there is no answer, or not all of it: what a user is told in one line on standard error.
#[derive(Clone, Copy, Debug, Drop, PartialEq, Eq)]
pub enum Refusal {
    OutOfMemory,
    Refused(Cause),
    /// The output failed or took nothing, behind so many bytes.
    NotWritten(u64),
    /// The store failed to keep a file.
    NotKept,
}

impl From<refusals::Refusal<LoadCause>> for Refusal {
    ghost use Rattle.endings.specs.Refusal.{unread};

    ghost from_gives = { λ refusal own. own ≡ unread refusal };

    fn from(refusal: refusals::Refusal<LoadCause>) -> Refusal {
        match refusal {
            refusals::Refusal::Refused(cause) => Refusal::Refused(Cause::Load(cause)),
            refusals::Refusal::OutOfMemory => Refusal::OutOfMemory,
        }
    }
}

impl From<refusals::Refusal<FileCause>> for Refusal {
    ghost use Rattle.endings.specs.Refusal.{undecoded};

    ghost from_gives = { λ refusal own. own ≡ undecoded refusal };

    fn from(refusal: refusals::Refusal<FileCause>) -> Refusal {
        match refusal {
            refusals::Refusal::Refused(cause) => {
                Refusal::Refused(Cause::File(VerifierCause::File(cause)))
            }
            refusals::Refusal::OutOfMemory => Refusal::OutOfMemory,
        }
    }
}

impl From<refusals::Refusal<TextCause>> for Refusal {
    ghost use Rattle.endings.specs.Refusal.{uncompiled};

    ghost from_gives = { λ refusal own. own ≡ uncompiled refusal };

    fn from(refusal: refusals::Refusal<TextCause>) -> Refusal {
        match refusal {
            refusals::Refusal::Refused(cause) => Refusal::Refused(Cause::Text(cause)),
            refusals::Refusal::OutOfMemory => Refusal::OutOfMemory,
        }
    }
}

impl From<refusals::Refusal<VerifierCause>> for Refusal {
    ghost use Rattle.endings.specs.Refusal.{unaccepted};

    ghost from_gives = { λ refusal own. own ≡ unaccepted refusal };

    fn from(refusal: refusals::Refusal<VerifierCause>) -> Refusal {
        match refusal {
            refusals::Refusal::Refused(cause) => Refusal::Refused(Cause::File(cause)),
            refusals::Refusal::OutOfMemory => Refusal::OutOfMemory,
        }
    }
}

impl From<refusals::Refusal<BookCause>> for Refusal {
    ghost use Rattle.endings.specs.Refusal.{unbooked};

    ghost from_gives = { λ refusal own. own ≡ unbooked refusal };

    fn from(refusal: refusals::Refusal<BookCause>) -> Refusal {
        match refusal {
            refusals::Refusal::Refused(BookCause::TooManyPostings) => {
                Refusal::Refused(Cause::TooManyPostings)
            }
            refusals::Refusal::OutOfMemory => Refusal::OutOfMemory,
        }
    }
}

impl From<refusals::Refusal<RunCause>> for Refusal {
    ghost use Rattle.endings.specs.Refusal.{unrun};

    ghost from_gives = { λ refusal own. own ≡ unrun refusal };

    fn from(refusal: refusals::Refusal<RunCause>) -> Refusal {
        match refusal {
            refusals::Refusal::Refused(RunCause::OutsideBounds) => {
                Refusal::Refused(Cause::OutsideBounds)
            }
            refusals::Refusal::OutOfMemory => Refusal::OutOfMemory,
        }
    }
}

impl From<AllocError> for Refusal {
    ghost use Rattle.endings.specs.declared.refusal.Refusal.TheVariants.{OutOfMemory};

    ghost from_gives = { λ _ own. own ≡ OutOfMemory };

    fn from(_error: AllocError) -> Refusal {
        Refusal::OutOfMemory
    }
}

/// Room for every line.
const LONGEST_LINE: usize = 64;

impl Refusal {
    /// 2 where input is refused, 3 where reading or writing failed, 4 where memory lacked.
    pub fn status(self) -> u8
        ensures { result ≡ rule.status_of self }
    {
        match self {
            Refusal::Refused(cause) => cause.status(),
            Refusal::NotWritten(_) | Refusal::NotKept => 3,
            Refusal::OutOfMemory => 4,
        }
    }

    /// The number that users see, or `words`; `M2` where memory lacked.
    pub fn code(self) -> &'static str
        ensures is { result.now ≡ rule.code_of self }
        ensures short { length result.now ≤ 5 }
    {
        match self {
            Refusal::Refused(cause) => cause.code(),
            Refusal::NotWritten(_) | Refusal::NotKept => "P1",
            Refusal::OutOfMemory => "M2",
        }
    }

    /// The place that its cause names, in bytes.
    pub fn place(self) -> Option<usize>
        ensures { result ≡ rule.place_of self }
    {
        match self {
            Refusal::Refused(cause) => cause.place(),
            _ => None,
        }
    }

    /// The line that tells it, with its line feed. Takes no memory.
    pub fn line(self) -> ArrayString<LONGEST_LINE>
        ensures { result.bytes ≡ rule.line_of self }
    {
        let mut line = ArrayString::new();
        line.push_str("bq: ");
        line.push_str(self.code());
        if let Some(place) = self.place() {
            line.push_str(" at ");
            line.push_str(Buffer::new().format(place));
        }
        line.push_str("\n");
        line
    }
}
