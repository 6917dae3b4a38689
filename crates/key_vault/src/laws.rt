// Laws on the files of vaults.
ghost use Rattle.key_vault.specs.Readings.{OneReading, NeverBroken};

/// A file tells the commands of one vault at most, and where it tells one it is no refused file.
pub fn a_file_has_one_reading()
    ensures one { OneReading }
    ensures never_broken { NeverBroken }
{}
