// Laws of the definitions, for the layers above.
ghost use Rattle.key_statuses.specs.Laws.{TellsTables, TellsStatuses, TellsChanges};

/// The tests of tables and of lists of statuses are true exactly for equal ones, and a change is told exactly where
/// the table or its statuses differ.
pub fn changes_are_told()
    ensures tables { TellsTables }
    ensures statuses { TellsStatuses }
    ensures changes { TellsChanges }
{}
