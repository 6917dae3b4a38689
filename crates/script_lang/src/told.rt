// What the lines of a script said so far.
ghost use Rattle.std.specs.Prelude.{◌≡◌, [], ◌∷◌, ◌++◌, OnOk, IfErr, IfOk, if◌then◌else◌};
ghost use Rattle.script_lang.specs.Rules.{label_fault};
ghost use Rattle.script_lang.specs.Script.{moment_after};
ghost use Rattle.script_lang.specs.Faults.{Breaks};
ghost use Rattle.script_lang.specs.Verbs.{is_create};

use crate::fault::{LineFault, ScriptKind};
use crate::labels::Labels;
use crate::parts::is_label;
use crate::script::{Action, Line};
use crate::verb::Verb;
use eme_types::Items;
use std::alloc::{AllocError, Global};

/// The labels created, the moment, and the lines that act.
#[derive(Drop)]
pub struct Told {
    pub labels: Labels,
    pub moment: u64,
    pub lines: Items<Line>,
}

impl Told {
    /// Before the first line.
    pub fn new(alloc: Global) -> Told
        ensures labels { result.labels ≡ [] }
        ensures moment { result.moment ≡ 0 }
        ensures lines { result.lines ≡ [] }
    {
        Told {
            labels: Labels::new(alloc),
            moment: 0,
            lines: Items::new(alloc),
        }
    }

    /// Tests the label of a line, and keeps the one that it creates.
    pub fn take_label(&mut self, alloc: Global, verb: Verb, label: &[u8]) -> Result<(), LineFault>
        ensures ok { OnOk result (label_fault self.old.labels verb label.now ≡ None) }
        ensures labels { OnOk result (self.new.labels ≡ (if is_create verb then self.old.labels ++ label.now ∷ [] else self.old.labels)) }
        ensures err { IfErr result (Breaks (label_fault self.old.labels verb label.now)) }
        ensures moment { self.new.moment ≡ self.old.moment }
        ensures lines { self.new.lines ≡ self.old.lines }
    {
        if verb.takes_label() && !is_label(label) {
            return Err(LineFault::Broken(ScriptKind::Label));
        }
        if !verb.is_create() {
            return Ok(());
        }
        if !self.labels.insert(alloc, label)? {
            return Err(LineFault::Broken(ScriptKind::DuplicateLabel));
        }
        Ok(())
    }

    /// Adds a line at the end. A clock line sets the moment.
    pub fn push(&mut self, line: Line) -> Result<(), AllocError>
        ensures lines { OnOk result (self.new.lines ≡ self.old.lines ++ line ∷ []) }
        ensures moment { OnOk result (self.new.moment ≡ moment_after self.old.moment line.action) }
        ensures labels { self.new.labels ≡ self.old.labels }
    {
        self.moment = moment_after(self.moment, &line.action);
        self.lines.push(line)
    }
}

fn moment_after(moment: u64, action: &Action) -> u64
    ensures { result ≡ moment_after moment action.now }
{
    match action {
        Action::Clock(next) => *next,
        Action::Ask(_) | Action::Feed | Action::Evict(_) | Action::Settle => moment,
    }
}
