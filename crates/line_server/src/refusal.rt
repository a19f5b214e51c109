//! Why a line was refused.

ghost use Rattle.std.specs.Prelude.{◌≡◌, ◌≤◌, Option, length, map, decimal};

use crate::source::SourceFault;
use history_store::Refusal;
use line_commands::Unread;
use std::alloc::AllocError;
use thiserror::Error;

/// Why a line was refused.
#[derive(Clone, Copy, Debug, PartialEq, Eq, Error)]
pub enum LineRefusal {
    /// The line is no request.
    #[error("{0}")]
    Unread(Unread),
    #[error("no import has this number")]
    PinRange,
    #[error("no release can be read from the folder")]
    NoFolder,
    #[error("{0}")]
    Store(Refusal),
}

impl From<Refusal> for LineRefusal {
    ghost use Rattle.std.specs.Prelude.{◌≡◌};
    ghost use Rattle.line_server.specs.declared.refusal.LineRefusal.TheVariants.{Store};

    ghost from_gives = { λ refusal e. e ≡ Store refusal };

    fn from(refusal: Refusal) -> LineRefusal {
        LineRefusal::Store(refusal)
    }
}

impl From<SourceFault> for LineRefusal {
    ghost use Rattle.std.specs.Prelude.{◌≡◌};
    ghost use Rattle.line_server.specs.Sources.{of_source};

    ghost from_gives = { λ fault e. e ≡ of_source fault };

    fn from(fault: SourceFault) -> LineRefusal {
        match fault {
            SourceFault::OutOfMemory => LineRefusal::Store(Refusal::OutOfMemory),
            SourceFault::NoFolder => LineRefusal::NoFolder,
        }
    }
}

impl From<AllocError> for LineRefusal {
    ghost use Rattle.std.specs.Prelude.{◌≡◌};
    ghost use Rattle.history_store.specs.declared.refusal.Refusal.TheVariants.{OutOfMemory};
    ghost use Rattle.line_server.specs.declared.refusal.LineRefusal.TheVariants.{Store};

    ghost from_gives = { λ _ e. e ≡ Store OutOfMemory };

    fn from(_: AllocError) -> LineRefusal {
        LineRefusal::Store(Refusal::OutOfMemory)
    }
}

impl LineRefusal {
    ghost use Rattle.std.specs.Prelude.{◌≡◌, ◌≤◌, length};
    ghost use Rattle.line_server.specs.ReplyValue.{sign_of, place_of, place_words};

    /// The number of the refusal in the protocol.
    pub fn code(self) -> u8
        // promise: a_refusal_names_its_cause, each_line_gets_one_reply
        ensures { result ≡ (sign_of self).0 }
    {
        match self {
            LineRefusal::Unread(reason) => reason.code(),
            LineRefusal::PinRange => 44,
            LineRefusal::NoFolder => 45,
            LineRefusal::Store(refusal) => refusal.code(),
        }
    }

    /// The name of the refusal, which the protocol writes after the number.
    pub fn name(self) -> &'static str
        // promise: a_refusal_names_its_cause, each_line_gets_one_reply
        ensures name { result.now ≡ (sign_of self).1 }
        // promise: a_refusal_names_its_cause, each_line_gets_one_reply
        ensures short { length result.now ≤ 20 }
    {
        match self {
            LineRefusal::Unread(reason) => reason.name(),
            LineRefusal::PinRange => "PinRange",
            LineRefusal::NoFolder => "NoFolder",
            LineRefusal::Store(refusal) => refusal.name(),
        }
    }

    /// The file and the line of a release at which it was refused.
    pub fn place(self) -> Option<(usize, usize)>
        // promise: a_refusal_names_its_cause, each_line_gets_one_reply
        ensures { place_words result ≡ place_of self }
    {
        match self {
            LineRefusal::Store(Refusal::Line { file, line, .. }) => Some((file, line)),
            LineRefusal::Store(Refusal::Contradiction { file, line }) => Some((file, line)),
            _ => None,
        }
    }
}
