// Laws of histories.
ghost use Rattle.cdm_state.specs.Law.{SettlesAtMostOnce, SettlesEachOnce, MomentIsOfLastTick, MomentIsPastEachTick, OwesEachOnce, ClaimsEachOnce, ClaimsInTheWindow, FrontsAreLegal};
ghost use Rattle.cdm_state.specs.Progress.{ComesToRest, RestIsQuiet, RestStays};
ghost use Rattle.cdm_state.specs.Open.{StandsOn, StaysOpen};
ghost use Rattle.cdm_state.specs.OfSamples.{FedInOrder, LiveClaimsAreOfTheirSamples, PublishedAreOut, OutGoesOn};
ghost use Rattle.cdm_state.specs.Waiting.{WaitsOnlyForKeys};

/// No promise is settled twice.
pub fn promises_are_settled_at_most_once()
    ensures { SettlesAtMostOnce }
{}

/// After a history that ends at rest the promise of each call was settled, just once.
pub fn promises_are_settled_once()
    ensures { SettlesEachOnce }
{}

/// The moment after a history is that of its last tick, or 0 before the first.
pub fn moment_is_of_the_last_tick()
    ensures { MomentIsOfLastTick }
{}

/// After a history with nothing to do and no claim that waits for its delivery the core is at rest.
pub fn what_has_nothing_to_do_is_at_rest()
    ensures { ComesToRest }
{}

/// Each pending promise stands in exactly one queued job or task, and a settled one in none.
pub fn promises_are_owed_once()
    ensures { OwesEachOnce }
{}

/// A sample has at most one live claim, and its index is in the window behind what its track has published.
pub fn claims_are_alone_in_the_window()
    ensures once { ClaimsEachOnce }
    ensures window { ClaimsInTheWindow }
{}

/// A track waits only at a protected sample without a live claim. Where a session holds its key usable, what looks at the track again
/// is queued: a `Resume`, or an update or a report of that session.
pub fn tracks_wait_only_for_keys()
    ensures { WaitsOnlyForKeys }
{}

/// A front of a legal history is legal.
pub fn fronts_are_legal()
    ensures { FrontsAreLegal }
{}

/// At rest no job, task, claim, publication, clear sample or wait may come, and deliveries and give-ups leave it at rest.
pub fn what_is_at_rest_has_nothing_to_do()
    ensures quiet { RestIsQuiet }
    ensures stays { RestStays }
{}

/// The moment is at least that of each tick.
pub fn moment_is_past_each_tick()
    ensures { MomentIsPastEachTick }
{}

/// A claim stands in every longer history, and waits for its delivery until it is delivered or given up.
pub fn claims_stay_open()
    ensures stands { StandsOn }
    ensures open_ { StaysOpen }
{}

/// A live claim is of its sample, under the key that its session holds.
pub fn live_claims_are_of_their_samples()
    ensures { LiveClaimsAreOfTheirSamples }
{}

/// What was fed on a track is the samples of the feeds, in order.
pub fn samples_are_fed_in_order()
    ensures { FedInOrder }
{}

/// As many samples of a track are published as are out, and what is out of a history begins what is out of every longer one.
pub fn what_is_published_is_out()
    ensures count { PublishedAreOut }
    ensures goes_on { OutGoesOn }
{}
