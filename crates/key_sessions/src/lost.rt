// A key that a step ended.
use eme_types::KeyId;

/// A session and a key id under which it had a usable key before a step, and has none or another one after it.
#[derive(Drop)]
pub struct Lost {
    pub session: u32,
    pub kid: KeyId,
}
