// Which configuration is granted.
ghost use Rattle.std.specs.Prelude.{◌≡◌, filter, find, IfOk, IfErr, Ok, Err, IsSome, option_map};
ghost use Rattle.std.specs.List.{All, list_all, list_any};
ghost use Rattle.key_system_access.specs.Access.{is_init_type, is_session_type, init_types_fit, is_no_demand, is_capable, has_content, capabilities_fit, supported, kept, access, IsRefusal};
ghost use Rattle.key_system_access.specs.Utf8.{IsConfigUtf8};

use crate::content::{Medium, is_content_type};
use eme_types::{Bytes, Capabilities, Capability, Config, Configs, Copies, DomError, Need, Texts};
use std::alloc::{AllocError, Global};

/// Why a request for access fails.
#[derive(Clone, Copy, Debug, PartialEq, Eq)]
pub enum AccessFault {
    /// `TypeFault`: the name or the list is empty. `NotSupported`: the name is unknown, or no configuration is supported.
    Dom(DomError),
    OutOfMemory,
}

impl From<AllocError> for AccessFault {
    ghost use Rattle.std.specs.Prelude.{◌≡◌};
    ghost use Rattle.key_system_access.specs.declared.access.AccessFault.TheVariants.{OutOfMemory};

    ghost from_gives = { λ _ e. e ≡ OutOfMemory };

    fn from(_: AllocError) -> AccessFault {
        AccessFault::OutOfMemory
    }
}

fn is_init_type(text: &Bytes) -> bool
    ensures { result ≡ is_init_type text.now }
{
    text.as_slice() == b"cenc".as_slice() || text.as_slice() == b"keyids".as_slice()
}

fn is_session_type(text: &Bytes) -> bool
    ensures { result ≡ is_session_type text.now }
{
    text.as_slice() == b"temporary".as_slice()
}

fn have_init_type(types: &[Bytes]) -> bool
    ensures { result ≡ list_any is_init_type types.now }
{
    types.iter().any(|text| is_init_type(text))
}

fn init_types_fit(types: &[Bytes]) -> bool
    ensures { result ≡ init_types_fit types.now }
{
    types.is_empty() || have_init_type(types)
}

fn is_no_demand(need: Need) -> bool
    ensures { result ≡ is_no_demand need }
{
    !matches!(need, Need::Required)
}

fn is_capable(medium: Medium, capability: &Capability) -> bool
    ensures { result ≡ is_capable medium capability.now }
{
    capability.robustness.as_slice().is_empty()
        && is_content_type(medium, capability.content.as_slice())
}

fn has_content(capability: &Capability) -> bool
    ensures { result ≡ has_content capability.now }
{
    !capability.content.as_slice().is_empty()
}

fn are_capable(medium: Medium, capabilities: &[Capability]) -> bool
    ensures { result ≡ list_any (is_capable medium) capabilities.now }
{
    capabilities.iter().any(|c| is_capable(medium, c))
}

fn have_content(capabilities: &[Capability]) -> bool
    ensures { result ≡ list_all has_content capabilities.now }
{
    capabilities.iter().all(|c| has_content(c))
}

fn are_session_types(types: &[Bytes]) -> bool
    ensures { result ≡ list_all is_session_type types.now }
{
    types.iter().all(|text| is_session_type(text))
}

fn capabilities_fit(medium: Medium, capabilities: &[Capability]) -> bool
    ensures { result ≡ capabilities_fit medium capabilities.now }
{
    have_content(capabilities) && (capabilities.is_empty() || are_capable(medium, capabilities))
}

// 'Get Supported Configuration', without what is kept.
#[tactic(auto, unfolding(crate::specs::Access::supported))]
fn supported(config: &Config) -> bool
    ensures { result ≡ supported config.now }
{
    let video = config.video.as_slice();
    let audio = config.audio.as_slice();
    init_types_fit(config.init_types.as_slice())
        && (is_no_demand(config.identifier) && is_no_demand(config.state))
        && are_session_types(config.sessions.as_slice())
        && !(video.is_empty() && audio.is_empty())
        && (capabilities_fit(Medium::Video, video) && capabilities_fit(Medium::Audio, audio))
}

fn kept_init_types(alloc: Global, types: &[Bytes]) -> Result<Texts, AllocError>
    ensures { IfOk result (λ kept. kept ≡ filter is_init_type types.now) }
{
    let mut kept = Texts::new(alloc);
    for text in types {
        if is_init_type(text) {
            kept.push(text.copy()?)?;
        }
    }
    Ok(kept)
}

fn kept_capabilities(
    alloc: Global,
    medium: Medium,
    capabilities: &[Capability],
) -> Result<Capabilities, AllocError>
    ensures { IfOk result (λ kept. kept ≡ filter (is_capable medium) capabilities.now) }
{
    let mut kept = Capabilities::new(alloc);
    for capability in capabilities {
        if is_capable(medium, capability) {
            kept.push(capability.copy()?)?;
        }
    }
    Ok(kept)
}

#[tactic(auto, unfolding(crate::specs::Access::kept))]
fn kept(alloc: Global, config: &Config) -> Result<Config, AllocError>
    ensures { IfOk result (λ granted. granted ≡ kept config.now) }
{
    Ok(Config {
        label: config.label.copy()?,
        init_types: kept_init_types(alloc, config.init_types.as_slice())?,
        audio: kept_capabilities(alloc, Medium::Audio, config.audio.as_slice())?,
        video: kept_capabilities(alloc, Medium::Video, config.video.as_slice())?,
        identifier: Need::NotAllowed,
        state: Need::NotAllowed,
        sessions: config.sessions.copy()?,
    })
}

fn first_supported(candidates: &[Config]) -> Option<&Config>
    ensures { option_map (λ c. c.now) result ≡ find supported candidates.now }
{
    for candidate in candidates {
        if supported(candidate) {
            return Some(candidate);
        }
    }
    None
}

fn granted(alloc: Global, candidates: &[Config]) -> Result<Option<Config>, AllocError>
    ensures ok { IfOk result (λ config. config ≡ option_map kept (find supported candidates.now)) }
    ensures found { IfErr result (λ _. IsSome (find supported candidates.now)) }
{
    let Some(candidate) = first_supported(candidates) else {
        return Ok(None);
    };
    Ok(Some(kept(alloc, candidate)?))
}

/// `requestMediaKeySystemAccess` (Encrypted Media Extensions): what is kept of the first supported configuration.
#[tactic(auto, unfolding(crate::specs::Access::access))]
pub fn request_access(alloc: Global, name: &[u8], configs: &Configs) -> Result<Config, AccessFault>
    ensures ok { IfOk result (λ config. access name.now configs.now ≡ Ok config) }
    ensures utf8 { IfOk result (λ config. All IsConfigUtf8 configs.now → IsConfigUtf8 config) }
    ensures refused { IfErr result (λ fault. IsRefusal fault (access name.now configs.now)) }
{
    let candidates = configs.as_slice();
    if name.is_empty() || candidates.is_empty() {
        return Err(AccessFault::Dom(DomError::TypeFault));
    }
    if name != b"org.w3.clearkey".as_slice() {
        return Err(AccessFault::Dom(DomError::NotSupported));
    }
    match granted(alloc, candidates)? {
        Some(config) => Ok(config),
        None => Err(AccessFault::Dom(DomError::NotSupported)),
    }
}
