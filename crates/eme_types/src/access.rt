// Configurations of a key system (Encrypted Media Extensions, MediaKeySystemConfiguration).
ghost use Rattle.std.specs.Prelude.{◌≡◌, IfOk};

use crate::items::{Bytes, Copies, Items};
use std::alloc::AllocError;

pub type Texts = Items<Bytes>;

/// A content type with a robustness level (MediaKeySystemMediaCapability).
#[derive(Drop)]
pub struct Capability {
    pub content: Bytes,
    pub robustness: Bytes,
}

pub type Capabilities = Items<Capability>;

/// MediaKeysRequirement.
#[derive(Clone, Copy, Debug, PartialEq, Eq)]
pub enum Need {
    Required,
    Optional,
    NotAllowed,
}

/// A configuration, asked for or granted. Its texts are UTF-8 where they were read from JSON.
#[derive(Drop)]
pub struct Config {
    pub label: Bytes,
    pub init_types: Texts,
    pub audio: Capabilities,
    pub video: Capabilities,
    pub identifier: Need,
    pub state: Need,
    pub sessions: Texts,
}

pub type Configs = Items<Config>;

impl Copies for Capability {
    fn copy(&self) -> Result<Capability, AllocError> {
        let content = self.content.copy()?;
        let robustness = self.robustness.copy()?;
        Ok(Capability {
            content,
            robustness,
        })
    }
}

impl Copies for Config {
    fn copy(&self) -> Result<Config, AllocError> {
        Ok(Config {
            label: self.label.copy()?,
            init_types: self.init_types.copy()?,
            audio: self.audio.copy()?,
            video: self.video.copy()?,
            identifier: self.identifier,
            state: self.state,
            sessions: self.sessions.copy()?,
        })
    }
}
