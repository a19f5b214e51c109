//! The state that a server keeps between lines, besides its store.

ghost use Rattle.std.specs.Prelude.{◌≡◌, ◌<◌, ℕ, IsTrue, ◌↔◌, slice_set};
ghost use Rattle.line_commands.specs.Requests.{command_of, sessions};
ghost use Rattle.line_server.specs.Pins.{AreWithin, pin_of};
ghost use Rattle.line_server.specs.StateValue.{fresh_holding, met_by, reason_of, HoldsBack};

use crate::held::Held;
use crate::refusal::LineRefusal;
use history_store::Refusal;
use line_commands::{Command, SESSIONS, Unread};
use std::marker::Model;

/// The pin of each session, if it has one, and which commands are held back. It is valid for one
/// opening of a store: whoever opens the store again makes a new one.
#[derive(Drop)]
pub struct ServerState {
    pins: [Option<u32>; SESSIONS],
    held: Held,
}

impl Model for ServerState {
    ghost use Rattle.std.specs.Prelude.{length, ◌≡◌};
    ghost use Rattle.line_commands.specs.Requests.{sessions};
    ghost use Rattle.line_server.specs.StateValue.{StateValue};

    ghost Value = { StateValue };

    ghost view = { λ s. record { pins = s.pins; held = s.held } };

    ghost invariant = { λ s. length s.pins ≡ sessions };
}

impl ServerState {
    /// The initial state of a server that holds these commands back: no session is pinned.
    pub fn new(held: Held) -> ServerState
        // promise: a_session_is_not_disturbed
        ensures value { result ≡ fresh_holding held }
        // promise: a_session_is_not_disturbed
        ensures within { (imports : ℕ) → AreWithin imports result.pins }
    {
        ServerState {
            pins: [None; SESSIONS],
            held,
        }
    }

    /// The number of imports that a session sees: its pin, or all imports if it has none.
    pub fn pin_of(&self, session: u16, imports: u32) -> u32
        requires { session < sessions }
        ensures { result ≡ pin_of self.now.pins session imports }
    {
        match self.pins[session as usize] {
            Some(number) => number,
            None => imports,
        }
    }

    /// Pins a session, or unpins it.
    pub fn pin(&mut self, session: u16, pin: Option<u32>)
        requires { session < sessions }
        ensures { self.new ≡ record self.old { pins = slice_set self.old.pins session pin } }
    {
        self.pins[session as usize] = pin;
    }

    /// Whether the command is held back.
    pub(crate) fn holds_back(&self, command: &Command<'_>) -> bool
        ensures { IsTrue result ↔ HoldsBack self.now.held (command_of command.now) }
    {
        match command {
            Command::Import { .. }
            | Command::Check { .. }
            | Command::Merge
            | Command::Step { .. }
            | Command::Publish => self.held != Held::Nothing,
            Command::Abandon | Command::Trim => self.held == Held::Changing,
            _ => false,
        }
    }

    /// Why a command that is held back is refused.
    pub(crate) fn reason(&self) -> LineRefusal
        ensures { result ≡ reason_of self.now.held }
    {
        match self.held {
            Held::Changing => LineRefusal::Unread(Unread::Command),
            Held::Nothing | Held::Confirming => LineRefusal::Store(Refusal::Damaged),
        }
    }

    /// Records whether a line was refused because of damage.
    pub(crate) fn note(&mut self, refusal: LineRefusal)
        ensures { self.new ≡ record self.old { held = met_by refusal self.old.held } }
    {
        if refusal == LineRefusal::Store(Refusal::Damaged) && self.held == Held::Nothing {
            self.held = Held::Confirming;
        }
    }
}
