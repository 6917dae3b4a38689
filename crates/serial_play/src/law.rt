// The law of paced scripts.
ghost use Rattle.serial_play.specs.Law.{OneAnswer};

/// Where a script is paced and agreeing, every legal history that is complete for it and the media has the track files, promise results and
/// events of the serial play, whatever the schedule and the number of workers.
pub fn paced_scripts_have_one_answer()
    ensures { OneAnswer }
{}
