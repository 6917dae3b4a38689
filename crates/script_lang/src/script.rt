// Scripts.
ghost use Rattle.std.specs.Prelude.{◌≡◌, length};

use eme_types::{AppCall, Bytes, Items};
use std::marker::Model;

/// What a line does.
#[derive(Drop)]
pub enum Action {
    /// A call of the application.
    Ask(AppCall),
    /// Feeds the next fragment.
    Feed,
    /// Sets the moment, in milliseconds.
    Clock(u64),
    /// The CDM ends the session with the label.
    Evict(Bytes),
    /// Takes steps until nothing is left to do.
    Settle,
}

/// A line of a script. Line numbers count from 1.
#[derive(Drop)]
pub struct Line {
    pub number: u32,
    pub lane: u8,
    pub action: Action,
}

/// A script: its lines, in order. Line numbers rise, lanes are 0 to 7, only lane 0 feeds, sets the clock, evicts and
/// settles, and no moment is below an earlier one or above 2^53.
#[derive(Drop)]
pub struct Script {
    lines: Items<Line>,
}

impl Model for Script {
    ghost use Rattle.std.specs.Prelude.{List};
    ghost use Rattle.script_lang.specs.declared.script.Line.{Line};
    ghost use Rattle.script_lang.specs.Script.{IsScript};

    ghost Value = { List Line };

    ghost view = { λ s. s.lines };

    ghost invariant = { λ s. IsScript s.lines };
}

impl Script {
    ghost use Rattle.script_lang.specs.Script.{IsScript};

    /// The script of these lines.
    pub fn new(lines: Items<Line>) -> Script
        requires { IsScript lines }
        ensures { result ≡ lines }
    {
        Script { lines }
    }

    /// The number of lines that do something.
    pub fn len(&self) -> usize
        ensures { result ≡ length self.now }
    {
        self.lines.len()
    }

    /// The lines, in order.
    pub fn as_slice(&self) -> &[Line]
        ensures value { result.now ≡ self.now }
        ensures script { IsScript self.now }
    {
        self.lines.as_slice()
    }
}
