// A law of histories on one thread.
ghost use Rattle.player_core.specs.Alone.{IsTheOne};

/// A script and a media have one history on one thread: any two are equal.
pub fn the_alone_history_is_one()
    ensures { IsTheOne }
{}
