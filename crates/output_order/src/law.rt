// Laws of the texts.
ghost use Rattle.output_order.specs.Law.{CompleteIsBegun, LogDetermines, LogGoesOn, FileGoesOn, SummaryGoesOn};
ghost use Rattle.output_order.specs.News.{AllIsNews};

/// A complete history is a history of its script and its media so far.
pub fn what_is_complete_is_begun()
    ensures { CompleteIsBegun }
{}

/// Two legal histories of one script and one media, complete or on the way, that have one log are equal.
pub fn the_log_determines_the_history()
    ensures { LogDetermines }
{}

/// The texts of a history that goes on are those of its front followed by what is new.
pub fn texts_go_on()
    ensures log { LogGoesOn }
    ensures file { FileGoesOn }
    ensures summary { SummaryGoesOn }
{}

/// Beyond the empty history a history has its whole log and its whole files.
pub fn news_beyond_nothing_are_all()
    ensures { AllIsNews }
{}
