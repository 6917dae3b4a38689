// Negotiation of access to the key system.
ghost use Rattle.std.specs.Prelude.{◌≡◌, IfOk};
ghost use Rattle.key_system_access.specs.Configs.{configs_of};
ghost use Rattle.key_sessions.specs.Calls.{access_result};

use eme_types::{DomError, Settled};
use key_system_access::{AccessFault, ConfigFault, config_text, read_configs, request_access};
use std::alloc::{AllocError, Global};

/// How the promise of a request for access is settled.
pub fn negotiate(alloc: Global, name: &[u8], list: &[u8]) -> Result<Settled, AllocError>
    ensures { IfOk result (λ how. how ≡ access_result name.now (configs_of list.now)) }
{
    let configs = match read_configs(alloc, list) {
        Ok(configs) => configs,
        Err(ConfigFault::Json) => return Ok(Settled::Rejected(DomError::TypeFault)),
        Err(ConfigFault::Shape) => return Ok(Settled::Rejected(DomError::TypeFault)),
        Err(ConfigFault::OutOfMemory) => return Err(AllocError),
    };
    match request_access(alloc, name, &configs) {
        Ok(config) => Ok(Settled::ResolvedConfig(config_text(alloc, &config)?)),
        Err(AccessFault::Dom(error)) => Ok(Settled::Rejected(error)),
        Err(AccessFault::OutOfMemory) => Err(AllocError),
    }
}
