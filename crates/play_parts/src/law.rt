// The law of the parts of a play.
ghost use Rattle.play_parts.specs.Whole.{TeamIsWhole};

/// Where every entry of a legal history is one of the lanes' passes or of the workers' passes, and these are over, the history is complete
/// and staffed, and no claim is open.
pub fn the_parts_make_a_whole()
    ensures { TeamIsWhole }
{}
