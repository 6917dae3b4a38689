// Lists of configurations in JSON.
ghost use Rattle.std.specs.Prelude.{◌≡◌, ◌≢◌, [], map, IfOk, IfErr, Ok, Err};
ghost use Rattle.std.specs.List.{All};
ghost use Rattle.std.specs.Str.{IsUtf8};
ghost use Rattle.serde_json.specs.Find.{get};
ghost use Rattle.serde_json.specs.View.{view};
ghost use Rattle.eme_types.specs.FirstFault.{Gives, read_each};
ghost use Rattle.eme_types.specs.declared.access.Need.TheVariants.{Optional};
ghost use Rattle.key_system_access.specs.declared.configs.ConfigFault.TheVariants.{OutOfMemory};
ghost use Rattle.key_system_access.specs.Configs.{member_or, text_of, list_in, sessions_of, capability_of, need_of, config_of, configs_of};
ghost use Rattle.key_system_access.specs.Utf8.{IsCapabilityUtf8, IsConfigUtf8};

use clearkey_json::json_of;
use eme_types::{Bytes, Capabilities, Capability, Config, Configs, Need, Texts};
use serde_json::Value;
use std::alloc::{AllocError, Global};

/// Why bytes are no list of configurations.
#[derive(Clone, Copy, Debug, PartialEq, Eq)]
pub enum ConfigFault {
    /// They are not UTF-8 or not JSON.
    Json,
    /// They are no list of objects whose named members have their types.
    Shape,
    OutOfMemory,
}

impl From<AllocError> for ConfigFault {
    ghost use Rattle.std.specs.Prelude.{◌≡◌};
    ghost use Rattle.key_system_access.specs.declared.configs.ConfigFault.TheVariants.{OutOfMemory};

    ghost from_gives = { λ _ e. e ≡ OutOfMemory };

    fn from(_: AllocError) -> ConfigFault {
        ConfigFault::OutOfMemory
    }
}

fn text_of(alloc: Global, value: &Value) -> Result<Bytes, ConfigFault>
    ensures value { Gives (λ e. e ≡ OutOfMemory) (λ text. text) result (text_of (view value.now)) }
    ensures utf8 { IfOk result IsUtf8 }
{
    let Some(text) = value.as_str() else {
        return Err(ConfigFault::Shape);
    };
    Ok(Bytes::from_slice(alloc, text.as_bytes())?)
}

// The text at a member.
fn text_at(alloc: Global, object: &Value, name: &str) -> Result<Bytes, ConfigFault>
    ensures value { Gives (λ e. e ≡ OutOfMemory) (λ text. text) result (member_or [] text_of (get name.now (view object.now))) }
    ensures utf8 { IfOk result IsUtf8 }
{
    match object.get(name) {
        Some(member) => text_of(alloc, member),
        None => Ok(Bytes::from_slice(alloc, "".as_bytes())?),
    }
}

fn texts_in(alloc: Global, values: &[Value]) -> Result<Texts, ConfigFault>
    ensures value { Gives (λ e. e ≡ OutOfMemory) (λ texts. texts) result (read_each text_of (map view values.now)) }
    ensures utf8 { IfOk result (All IsUtf8) }
{
    let mut texts = Texts::with_capacity(alloc, values.len())?;
    for value in values {
        let text = text_of(alloc, value)?;
        texts.push(text)?;
    }
    Ok(texts)
}

fn texts_of(alloc: Global, list: &Value) -> Result<Texts, ConfigFault>
    ensures value { Gives (λ e. e ≡ OutOfMemory) (λ texts. texts) result (list_in text_of (view list.now)) }
    ensures utf8 { IfOk result (All IsUtf8) }
{
    let Some(values) = list.as_array() else {
        return Err(ConfigFault::Shape);
    };
    texts_in(alloc, values)
}

// The list of texts at a member.
fn texts_at(alloc: Global, object: &Value, name: &str) -> Result<Texts, ConfigFault>
    ensures value { Gives (λ e. e ≡ OutOfMemory) (λ texts. texts) result (member_or [] (list_in text_of) (get name.now (view object.now))) }
    ensures utf8 { IfOk result (All IsUtf8) }
{
    match object.get(name) {
        Some(list) => texts_of(alloc, list),
        None => Ok(Texts::new(alloc)),
    }
}

// The list of session types.
fn sessions_of(alloc: Global, object: &Value) -> Result<Texts, ConfigFault>
    ensures value { Gives (λ e. e ≡ OutOfMemory) (λ texts. texts) result (sessions_of (view object.now)) }
    ensures utf8 { IfOk result (All IsUtf8) }
{
    let Some(list) = object.get("sessionTypes") else {
        let mut types = Texts::new(alloc);
        types.push(Bytes::from_slice(alloc, "temporary".as_bytes())?)?;
        return Ok(types);
    };
    texts_of(alloc, list)
}

#[tactic(auto, unfolding(crate::specs::Configs::capability_of))]
fn capability_of(alloc: Global, object: &Value) -> Result<Capability, ConfigFault>
    ensures value { Gives (λ e. e ≡ OutOfMemory) (λ capability. capability) result (capability_of (view object.now)) }
    ensures utf8 { IfOk result IsCapabilityUtf8 }
{
    if !object.is_object() {
        return Err(ConfigFault::Shape);
    }
    let content = text_at(alloc, object, "contentType")?;
    let robustness = text_at(alloc, object, "robustness")?;
    Ok(Capability {
        content,
        robustness,
    })
}

fn capabilities_in(alloc: Global, values: &[Value]) -> Result<Capabilities, ConfigFault>
    ensures value { Gives (λ e. e ≡ OutOfMemory) (λ capabilities. capabilities) result (read_each capability_of (map view values.now)) }
    ensures utf8 { IfOk result (All IsCapabilityUtf8) }
{
    let mut capabilities = Capabilities::with_capacity(alloc, values.len())?;
    for value in values {
        let capability = capability_of(alloc, value)?;
        capabilities.push(capability)?;
    }
    Ok(capabilities)
}

// The list of capabilities at a member.
fn capabilities_at(alloc: Global, object: &Value, name: &str) -> Result<Capabilities, ConfigFault>
    ensures value { Gives (λ e. e ≡ OutOfMemory) (λ capabilities. capabilities) result (member_or [] (list_in capability_of) (get name.now (view object.now))) }
    ensures utf8 { IfOk result (All IsCapabilityUtf8) }
{
    let Some(list) = object.get(name) else {
        return Ok(Capabilities::new(alloc));
    };
    let Some(values) = list.as_array() else {
        return Err(ConfigFault::Shape);
    };
    capabilities_in(alloc, values)
}

fn need_of(value: &Value) -> Result<Need, ConfigFault>
    ensures { result ≡ need_of (view value.now) }
{
    let Some(text) = value.as_str() else {
        return Err(ConfigFault::Shape);
    };
    if text == "required" {
        return Ok(Need::Required);
    }
    if text == "optional" {
        return Ok(Need::Optional);
    }
    if text == "not-allowed" {
        return Ok(Need::NotAllowed);
    }
    Err(ConfigFault::Shape)
}

// The need at a member.
fn need_at(object: &Value, name: &str) -> Result<Need, ConfigFault>
    ensures { result ≡ member_or Optional need_of (get name.now (view object.now)) }
{
    match object.get(name) {
        Some(member) => need_of(member),
        None => Ok(Need::Optional),
    }
}

#[tactic(auto, unfolding(crate::specs::Configs::config_of))]
fn config_of(alloc: Global, object: &Value) -> Result<Config, ConfigFault>
    ensures value { Gives (λ e. e ≡ OutOfMemory) (λ config. config) result (config_of (view object.now)) }
    ensures utf8 { IfOk result IsConfigUtf8 }
{
    if !object.is_object() {
        return Err(ConfigFault::Shape);
    }
    let label = text_at(alloc, object, "label")?;
    let init_types = texts_at(alloc, object, "initDataTypes")?;
    let audio = capabilities_at(alloc, object, "audioCapabilities")?;
    let video = capabilities_at(alloc, object, "videoCapabilities")?;
    let identifier = need_at(object, "distinctiveIdentifier")?;
    let state = need_at(object, "persistentState")?;
    let sessions = sessions_of(alloc, object)?;
    Ok(Config {
        label,
        init_types,
        audio,
        video,
        identifier,
        state,
        sessions,
    })
}

fn configs_in(alloc: Global, values: &[Value]) -> Result<Configs, ConfigFault>
    ensures value { Gives (λ e. e ≡ OutOfMemory) (λ configs. configs) result (read_each config_of (map view values.now)) }
    ensures utf8 { IfOk result (All IsConfigUtf8) }
{
    let mut configs = Configs::with_capacity(alloc, values.len())?;
    for value in values {
        let config = config_of(alloc, value)?;
        configs.push(config)?;
    }
    Ok(configs)
}

/// Reads a list of configurations. Members that a configuration or a capability does not name are passed over.
#[tactic(auto, unfolding(crate::specs::Configs::configs_of))]
pub fn read_configs(alloc: Global, bytes: &[u8]) -> Result<Configs, ConfigFault>
    ensures ok { IfOk result (λ configs. configs_of bytes.now ≡ Ok configs) }
    ensures utf8 { IfOk result (All IsConfigUtf8) }
    ensures refused { IfErr result (λ fault. fault ≢ OutOfMemory → configs_of bytes.now ≡ Err fault) }
{
    let Some(list) = json_of(alloc, bytes)? else {
        return Err(ConfigFault::Json);
    };
    let Some(values) = list.as_array() else {
        return Err(ConfigFault::Shape);
    };
    configs_in(alloc, values)
}
