//! The state of the world that the sessions, the claims and the core speak of: tracks with their fed samples, the keys that a step ended, and lists without repeats. It has definitions and lemmas alone.
#![tactic(auto)]
