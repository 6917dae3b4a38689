// A configuration in JSON.
ghost use Rattle.std.specs.Prelude.{◌≡◌, ◌++◌, IfOk, OnOk, string_bytes};
ghost use Rattle.std.specs.List.{All, flat_map};
ghost use Rattle.std.specs.Str.{IsUtf8};
ghost use Rattle.key_system_access.specs.ConfigText.{text_json, further, parted, list_json, need_json, capability_json, config_json};
ghost use Rattle.key_system_access.specs.Utf8.{IsCapabilityUtf8, IsConfigUtf8};

use eme_types::{Bytes, Capability, Config, Need};
use serde_json::Value;
use std::alloc::{AllocError, Global};
use std::str::from_utf8;

#[tactic(auto, unfolding(crate::specs::ConfigText::text_json))]
fn text_json(alloc: Global, text: &Bytes) -> Result<String, AllocError>
    requires { IsUtf8 text.now }
    ensures { IfOk result (λ json. string_bytes json ≡ text_json text.now) }
{
    let text = from_utf8(text.as_slice()).unwrap();
    Value::try_from_str(alloc, text)?.to_string(alloc)
}

fn put_text(out: &mut Bytes, alloc: Global, text: &Bytes) -> Result<(), AllocError>
    requires { IsUtf8 text.now }
    ensures { OnOk result (out.new ≡ out.old ++ text_json text.now) }
{
    out.extend_from_slice(text_json(alloc, text)?.as_bytes())
}

fn put_further_texts(out: &mut Bytes, alloc: Global, texts: &[Bytes]) -> Result<(), AllocError>
    requires { All IsUtf8 texts.now }
    ensures { OnOk result (out.new ≡ out.old ++ flat_map (further text_json) texts.now) }
{
    for text in texts {
        out.extend_from_slice(b",")?;
        put_text(out, alloc, text)?;
    }
    Ok(())
}

fn put_parted_texts(out: &mut Bytes, alloc: Global, texts: &[Bytes]) -> Result<(), AllocError>
    requires { All IsUtf8 texts.now }
    ensures { OnOk result (out.new ≡ out.old ++ parted text_json texts.now) }
{
    match texts {
        [] => Ok(()),
        [text, others @ ..] => {
            put_text(out, alloc, text)?;
            put_further_texts(out, alloc, others)
        }
    }
}

fn put_texts(out: &mut Bytes, alloc: Global, texts: &[Bytes]) -> Result<(), AllocError>
    requires { All IsUtf8 texts.now }
    ensures { OnOk result (out.new ≡ out.old ++ list_json text_json texts.now) }
{
    out.extend_from_slice(b"[")?;
    put_parted_texts(out, alloc, texts)?;
    out.extend_from_slice(b"]")
}

#[tactic(auto, unfolding(crate::specs::ConfigText::capability_json))]
fn put_capability(out: &mut Bytes, alloc: Global, capability: &Capability) -> Result<(), AllocError>
    requires { IsCapabilityUtf8 capability.now }
    ensures { OnOk result (out.new ≡ out.old ++ capability_json capability.now) }
{
    out.extend_from_slice(b"{\"contentType\":")?;
    put_text(out, alloc, &capability.content)?;
    out.extend_from_slice(b",\"robustness\":")?;
    put_text(out, alloc, &capability.robustness)?;
    out.extend_from_slice(b"}")
}

fn put_further_capabilities(
    out: &mut Bytes,
    alloc: Global,
    capabilities: &[Capability],
) -> Result<(), AllocError>
    requires { All IsCapabilityUtf8 capabilities.now }
    ensures { OnOk result (out.new ≡ out.old ++ flat_map (further capability_json) capabilities.now) }
{
    for capability in capabilities {
        out.extend_from_slice(b",")?;
        put_capability(out, alloc, capability)?;
    }
    Ok(())
}

fn put_parted_capabilities(
    out: &mut Bytes,
    alloc: Global,
    capabilities: &[Capability],
) -> Result<(), AllocError>
    requires { All IsCapabilityUtf8 capabilities.now }
    ensures { OnOk result (out.new ≡ out.old ++ parted capability_json capabilities.now) }
{
    match capabilities {
        [] => Ok(()),
        [capability, others @ ..] => {
            put_capability(out, alloc, capability)?;
            put_further_capabilities(out, alloc, others)
        }
    }
}

fn put_capabilities(
    out: &mut Bytes,
    alloc: Global,
    capabilities: &[Capability],
) -> Result<(), AllocError>
    requires { All IsCapabilityUtf8 capabilities.now }
    ensures { OnOk result (out.new ≡ out.old ++ list_json capability_json capabilities.now) }
{
    out.extend_from_slice(b"[")?;
    put_parted_capabilities(out, alloc, capabilities)?;
    out.extend_from_slice(b"]")
}

fn put_need(out: &mut Bytes, need: Need) -> Result<(), AllocError>
    ensures { OnOk result (out.new ≡ out.old ++ need_json need) }
{
    match need {
        Need::Required => out.extend_from_slice(b"\"required\""),
        Need::Optional => out.extend_from_slice(b"\"optional\""),
        Need::NotAllowed => out.extend_from_slice(b"\"not-allowed\""),
    }
}

/// A configuration as one JSON object without spaces, its members in the order of `Config`. Where it was answered by
/// `request_access`, it is what a promise is resolved with.
#[tactic(auto, unfolding(crate::specs::ConfigText::config_json))]
pub fn config_text(alloc: Global, config: &Config) -> Result<Bytes, AllocError>
    requires { IsConfigUtf8 config.now }
    ensures { IfOk result (λ text. text ≡ config_json config.now) }
{
    let mut out = Bytes::new(alloc);
    out.extend_from_slice(b"{\"label\":")?;
    put_text(&mut out, alloc, &config.label)?;
    out.extend_from_slice(b",\"initDataTypes\":")?;
    put_texts(&mut out, alloc, config.init_types.as_slice())?;
    out.extend_from_slice(b",\"audioCapabilities\":")?;
    put_capabilities(&mut out, alloc, config.audio.as_slice())?;
    out.extend_from_slice(b",\"videoCapabilities\":")?;
    put_capabilities(&mut out, alloc, config.video.as_slice())?;
    out.extend_from_slice(b",\"distinctiveIdentifier\":")?;
    put_need(&mut out, config.identifier)?;
    out.extend_from_slice(b",\"persistentState\":")?;
    put_need(&mut out, config.state)?;
    out.extend_from_slice(b",\"sessionTypes\":")?;
    put_texts(&mut out, alloc, config.sessions.as_slice())?;
    out.extend_from_slice(b"}")?;
    Ok(out)
}
