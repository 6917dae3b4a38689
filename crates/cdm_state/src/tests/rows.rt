//! The lines of the table, in the order in which they were made.

pub const REFUSED: &[u8] = br#"
done -> nothing
create a -> promise 1
done -> promise 1 resolved
request a -> promise 2
done -> promise 2 rejected TypeFault
request a {"kids":["AAECAwQFBgcICQoLDA0ODw"]} -> promise 3
done -> promise 3 rejected InvalidState
"#;

/// A session that can be updated.
pub const OPENED: &[u8] = br#"
create a -> promise 1
request a {"kids":["AAECAwQFBgcICQoLDA0ODw"]} -> promise 2
done -> nothing
job -> done
task -> done
done -> promise 2 resolved
task -> done
done -> event
"#;

pub const CLOSED_TWICE: &[u8] = br#"
close a -> promise 3
done -> nothing
close a -> promise 4
done -> promise 4 resolved
update a same -> promise 5
done -> promise 5 rejected InvalidState
job -> done
done -> nothing
task -> done
done -> statuses 1; closed 1 ClosedByApplication; promise 3 resolved
task -> done
done -> keystatuseschange 1
task -> done
task -> none
job -> none
"#;

/// The job of an evicted session rejects its promise.
pub const EVICTED_BEFORE_ITS_JOB: &[u8] = br#"
update a same -> promise 3
evict b -> false
evict a -> true
done -> nothing
job -> done
done -> nothing
task -> done
done -> statuses 1; closed 1 ResourceEvicted
task -> done
done -> promise 3 rejected InvalidState
task -> done
done -> keystatuseschange 1
task -> done
task -> none
close a -> promise 4
done -> promise 4 resolved
settle -> track 1
"#;

pub const UPDATED: &[u8] = br#"
update a {"keys":[{"kty":"oct","kid":"AAECAwQFBgcICQoLDA0ODw","k":"K34VFiiu0qar9xWICc9PPA=="}]} -> promise 3
job -> done
task -> done
done -> promise 3 rejected TypeFault
update a {"keys":[]} -> promise 4
job -> done
task -> done
done -> promise 4 rejected TypeFault
update a {"keys":[{"kty":"RSA","kid":"AAECAwQFBgcICQoLDA0ODw","k":"K34VFiiu0qar9xWICc9PPA"}]} -> promise 5
job -> done
task -> done
done -> promise 5 rejected TypeFault
update a {"keys":[{"kty":"oct","kid":"Ag","k":"K34VFiiu0qar9xWICc9PPA"},{"kty":"oct","kid":"AQ","k":"K34VFiiu0qar9xWICc9PPA"},{"kty":"oct","kid":"AQA","k":"K34VFiiu0qar9xWICc9PPA"}]} -> promise 6
job -> done
task -> done
done -> statuses 1 01=Usable 0100=Usable 02=Usable; promise 6 resolved
"#;

pub const PAST_ITS_TIME: &[u8] = br#"
clock 999 -> done
task -> none
clock 1000 -> done
task -> done
done -> statuses 1 000102030405060708090a0b0c0d0e0f=Expired
"#;

/// A full session takes no further key id.
pub const FULL: &[u8] = br#"
256 keys -> promise 3
job -> done
task -> done
task -> done
task -> done
task -> none
update a {"keys":[{"kty":"oct","kid":"AAZZ","k":"K34VFiiu0qar9xWICc9PPA"}]} -> promise 4
job -> done
task -> done
done -> promise 4 rejected Quota
task -> none
update a {"keys":[{"kty":"oct","kid":"AA01","k":"AAAAAAAAAAAAAAAAAAAAAA"}]} -> promise 5
job -> done
task -> done
done -> promise 5 resolved
"#;

pub const ONE_MORE: &[u8] = br#"
64 sessions -> done
done -> promise 64 resolved
create b -> promise 65
done -> promise 65 rejected Quota
"#;

/// Of 17 samples 16 are claimed, and none is out before the first is delivered.
pub const IN_ORDER: &[u8] = br#"
16 claims -> done
publish -> sample 0 of 1
publish -> sample 1 of 1
publish -> sample 2 of 1
publish -> sample 3 of 1
publish -> sample 4 of 1
publish -> sample 5 of 1
publish -> sample 6 of 1
publish -> sample 7 of 1
publish -> sample 8 of 1
publish -> sample 9 of 1
publish -> sample 10 of 1
publish -> sample 11 of 1
publish -> sample 12 of 1
publish -> sample 13 of 1
publish -> sample 14 of 1
publish -> sample 15 of 1
publish -> not ready
claim -> sample 16 of 1 under 1 with 2b at 60
"#;

pub const GRANTED: &[u8] = br#"
create a -> promise 1
request a {"kids":["AAECAwQFBgcICQoLDA0ODw"]} -> promise 2
job -> done
task -> done
task -> done
update a same -> promise 3
job -> done
task -> done
task -> done
task -> done
task -> none
job -> none
"#;

pub const GRANTED_UNTIL_1000: &[u8] = br#"
create a -> promise 1
request a {"kids":["AAECAwQFBgcICQoLDA0ODw"]} -> promise 2
job -> done
task -> done
task -> done
update a until 1000 -> promise 3
job -> done
task -> done
task -> done
task -> done
"#;

pub const TAKEN: &[u8] = br#"
settle -> track 1
wait -> not waiting
pass -> not ready
output 0 -> nothing
claim -> sample 0 of 1 under 1 with 2b at 12
publish -> not ready
deliver -> taken
publish -> sample 0 of 1
publish -> not ready
output 0 -> 6bc1bee22e409f96e93d7e117393172a
output 1 -> nothing
settle -> done
"#;

/// A closed session's claim is stale.
pub const CLOSED: &[u8] = br#"
claim -> sample 0 of 1 under 1 with 2b at 12
close a -> promise 4
settle -> job
job -> done
settle -> task
deliver -> stale
publish -> not ready
claim -> no work
wait -> track 1
wait -> not waiting
output 0 -> nothing, waiting
"#;

/// An evicted session's claim is stale, and it is evicted once.
pub const EVICTED: &[u8] = br#"
claim -> sample 0 of 1 under 1 with 2b at 12
evict a -> true
settle -> task
deliver -> stale
evict a -> false
publish -> not ready
claim -> no work
wait -> track 1
output 0 -> nothing, waiting
"#;

/// A key whose start is still to come is lost until then.
pub const LATER: &[u8] = br#"
claim -> sample 0 of 1 under 1 with 2b at 12
update a from 10 -> promise 4
job -> done
deliver -> stale
claim -> no work
output 0 -> nothing
wait -> track 1
output 0 -> nothing, waiting for later
task -> done
done -> statuses 1 000102030405060708090a0b0c0d0e0f=UsableInFuture; promise 4 resolved
task -> done
task -> done
task -> done
task -> none
output 0 -> nothing, waiting for later
settle -> done
clock 9 -> done
task -> none
clock 10 -> done
output 0 -> nothing, waiting
task -> done
done -> statuses 1 000102030405060708090a0b0c0d0e0f=Usable
task -> done
done -> keystatuseschange 1
task -> done
output 0 -> nothing
claim -> sample 0 of 1 under 1 with 2b at 27
deliver -> taken
publish -> sample 0 of 1
"#;

/// A key that was lost and granted again takes a new claim.
pub const REMOVED: &[u8] = br#"
claim -> sample 0 of 1 under 1 with 2b at 12
remove a -> promise 4
job -> done
update a same -> promise 5
job -> done
deliver -> stale
publish -> not ready
claim -> sample 0 of 1 under 1 with 2b at 18
deliver -> taken
publish -> sample 0 of 1
output 0 -> 6bc1bee22e409f96e93d7e117393172a
"#;

/// A second session that holds the key is claimed under.
pub const SECOND: &[u8] = br#"
create b -> promise 4
request b {"kids":["AAECAwQFBgcICQoLDA0ODw"]} -> promise 5
job -> done
task -> done
task -> done
update b same -> promise 6
job -> done
task -> done
task -> done
task -> done
task -> none
claim -> sample 0 of 1 under 1 with 2b at 22
close a -> promise 7
job -> done
deliver -> stale
wait -> not waiting
claim -> sample 0 of 1 under 2 with 2b at 26
deliver -> taken
"#;

pub const SAME: &[u8] = br#"
claim -> sample 0 of 1 under 1 with 2b at 12
update a same -> promise 4
job -> done
deliver -> taken
publish -> sample 0 of 1
"#;

pub const REPLACED: &[u8] = br#"
claim -> sample 0 of 1 under 1 with 2b at 12
update a other -> promise 4
job -> done
deliver -> stale
claim -> sample 0 of 1 under 1 with 00 at 16
"#;

/// Only the key after a whole update counts.
pub const BACK: &[u8] = br#"
claim -> sample 0 of 1 under 1 with 2b at 12
update a both -> promise 4
job -> done
deliver -> taken
publish -> sample 0 of 1
"#;

pub const EXPIRED: &[u8] = br#"
claim -> sample 0 of 1 under 1 with 2b at 12
clock 999 -> done
clock 1000 -> done
clock 999 -> past
update a same -> promise 4
job -> done
deliver -> stale
claim -> sample 0 of 1 under 1 with 2b at 18
deliver -> taken
"#;

pub const CLAIMED_AGAIN: &[u8] = br#"
claim -> sample 0 of 1 under 1 with 2b at 12
give up -> done
publish -> not ready
claim -> sample 0 of 1 under 1 with 2b at 14
deliver -> taken
publish -> sample 0 of 1
"#;

pub const WITHOUT_A_KEY: &[u8] = br#"
wait -> not waiting
pass -> sample 0 of 1
pass -> not ready
claim -> no work
wait -> track 1
output 0 -> 616263, waiting
task -> done
settle -> done
"#;
