// What a step answers.
ghost use Rattle.std.specs.Prelude.{◌≡◌, []};

use crate::lost::Lost;
use eme_types::Effects;
use std::alloc::Global;

/// What a step did that the application can see, in order of happening, and the keys that it ended, each once.
#[derive(Drop)]
pub struct Step {
    pub effects: Effects,
    pub lost: Vec<Lost>,
}

/// A step that did nothing.
pub fn no_step(alloc: Global) -> Step
    ensures effects { result.effects ≡ [] }
    ensures lost { result.lost.items ≡ [] }
{
    Step {
        effects: Effects::new(alloc),
        lost: Vec::new(alloc),
    }
}
