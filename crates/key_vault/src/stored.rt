// What a vault keeps.

use eme_types::{Bytes, Kids};

/// A licence that is held, or the key ids of one that is being released.
#[derive(Drop)]
pub enum VaultRecord {
    Held { label: Bytes, licence: Bytes },
    Releasing { label: Bytes, kids: Kids },
}
