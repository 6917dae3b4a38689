// Paced scripts.
ghost use Rattle.std.specs.Prelude.{◌≡◌, ◌↔◌, IsTrue};
ghost use Rattle.script_lang.specs.Paced.{settles as is_settle, IsPaced};

use crate::script::{Action, Line, Script};

/// Whether a script is paced: all lines are of lane 0, and each line that is no `settle` is the last or is followed by a `settle`.
pub fn is_paced(script: &Script) -> bool
    ensures { IsTrue result ↔ IsPaced script.now }
{
    let mut settled = true;
    for line in script.as_slice() {
        let settling = settles(line);
        if line.lane != 0 {
            return false;
        }
        if !settled && !settling {
            return false;
        }
        settled = settling;
    }
    true
}

/// Whether a line settles.
fn settles(line: &Line) -> bool
    ensures { result ≡ is_settle line.now.action }
{
    match line.action {
        Action::Settle => true,
        Action::Ask(_) | Action::Feed | Action::Clock(_) | Action::Evict(_) => false,
    }
}
