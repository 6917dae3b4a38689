ghost use Rattle.std.specs.List.{All};
ghost use Rattle.key_system_access.specs.Utf8.{IsConfigUtf8};

use crate::{AccessFault, ConfigFault, config_text, read_configs, request_access};
use eme_types::{Bytes, Capabilities, Capability, Config, Configs, DomError, Need, Texts};
use std::alloc::{AllocError, Global};
use std::str::from_utf8;
use std::test::Fail;

fn bytes(alloc: Global, text: &str) -> Result<Bytes, AllocError> {
    Bytes::from_slice(alloc, text.as_bytes())
}

fn text_of(alloc: Global, text: &Bytes) -> Result<String, AllocError> {
    match from_utf8(text.as_slice()) {
        Ok(text) => String::from_str(alloc, text),
        Err(_) => String::from_str(alloc, "not UTF-8"),
    }
}

// The text of the configuration that is granted, or the fault.
fn granted(alloc: Global, name: &str, list: &str) -> Result<String, AllocError> {
    let configs = match read_configs(alloc, list.as_bytes()) {
        Ok(configs) => configs,
        Err(ConfigFault::OutOfMemory) => return Err(AllocError),
        Err(_) => return String::from_str(alloc, "unread"),
    };
    match request_access(alloc, name.as_bytes(), &configs) {
        Ok(config) => text_of(alloc, &config_text(alloc, &config)?),
        Err(AccessFault::Dom(DomError::TypeFault)) => String::from_str(alloc, "TypeFault"),
        Err(AccessFault::Dom(_)) => String::from_str(alloc, "NotSupported"),
        Err(AccessFault::OutOfMemory) => Err(AllocError),
    }
}

// The text of the first configuration.
fn first_text(alloc: Global, configs: &[Config]) -> Result<String, AllocError>
    requires { All IsConfigUtf8 configs.now }
{
    match configs {
        [] => String::from_str(alloc, "none"),
        [config, ..] => text_of(alloc, &config_text(alloc, config)?),
    }
}

// The text of the first configuration of a list, or the fault.
fn written(alloc: Global, list: &[u8]) -> Result<String, AllocError> {
    match read_configs(alloc, list) {
        Ok(configs) => first_text(alloc, configs.as_slice()),
        Err(ConfigFault::Json) => String::from_str(alloc, "Json"),
        Err(ConfigFault::Shape) => String::from_str(alloc, "Shape"),
        Err(ConfigFault::OutOfMemory) => Err(AllocError),
    }
}

// Whether a configuration is granted whose only capabilities are these.
fn is_granted(alloc: Global, video: Option<&str>, audio: Option<&str>) -> Result<bool, AllocError> {
    let configs = configs_of(alloc, video, audio)?;
    match request_access(alloc, b"org.w3.clearkey", &configs) {
        Ok(_) => Ok(true),
        Err(AccessFault::Dom(_)) => Ok(false),
        Err(AccessFault::OutOfMemory) => Err(AllocError),
    }
}

fn configs_of(
    alloc: Global,
    video: Option<&str>,
    audio: Option<&str>,
) -> Result<Configs, AllocError> {
    let mut configs = Configs::new(alloc);
    configs.push(Config {
        label: Bytes::new(alloc),
        init_types: Texts::new(alloc),
        audio: capabilities_of(alloc, audio)?,
        video: capabilities_of(alloc, video)?,
        identifier: Need::Optional,
        state: Need::Optional,
        sessions: Texts::new(alloc),
    })?;
    Ok(configs)
}

fn capabilities_of(alloc: Global, content: Option<&str>) -> Result<Capabilities, AllocError> {
    let mut capabilities = Capabilities::new(alloc);
    if let Some(content) = content {
        capabilities.push(Capability {
            content: bytes(alloc, content)?,
            robustness: Bytes::new(alloc),
        })?;
    }
    Ok(capabilities)
}

#[test]
fn video_content_types(rt: HostRuntime) -> Result<(), Fail> {
    let cases = [
        ("video/mp4; codecs=\"avc1.42E01E\"", true),
        ("video/mp4;codecs=avc1.42E01E", true),
        ("video/mp4 ;  codecs=\"avc3, hev1.1,hvc1\"", true),
        ("video/mp4; codecs=vp09.00.10.08", true),
        ("video/mp4; codecs=av01", true),
        ("", false),
        ("video/mp4", false),
        ("video/mp4; codecs=", false),
        ("video/mp4; codecs=\"", false),
        ("video/mp4; codecs=\"\"", false),
        ("video/mp4; codecs=\"xyz1\"", false),
        ("video/mp4; codecs=\"mp4a.40.2\"", false),
        ("video/mp4; codecs=\"avc1", false),
        ("video/mp4; codecs=avc1\"", false),
        ("video/mp4; codecs=\"avc1,\"", false),
        ("video/mp4; codecs=\"avc1 ,hev1\"", false),
        ("video/mp4; codecs=\" avc1\"", false),
        ("video/mp4; codecs=\"avc1\" ", false),
        ("video/mp4; codecs=\"AVC1\"", false),
        ("Video/mp4; codecs=\"avc1\"", false),
        ("video/mp4; codecs=\"avc1\"; a=b", false),
        ("audio/mp4; codecs=\"mp4a\"", false),
        ("video/webm; codecs=\"vp09\"", false),
    ];
    for (content, good) in cases {
        assert!(rt; is_granted(rt.alloc(), Some(content), None)? == good);
    }
    Ok(())
}

#[test]
fn audio_content_types(rt: HostRuntime) -> Result<(), Fail> {
    let cases = [
        ("audio/mp4; codecs=\"mp4a.40.2\"", true),
        ("audio/mp4;codecs=ac-3,  ec-3", true),
        ("audio/mp4; codecs=\"Opus, fLaC\"", true),
        ("audio/mp4; codecs=\"opus\"", false),
        ("audio/mp4; codecs=\"mp4a, avc1\"", false),
        ("audio/mp4; codecs=\"avc1\"", false),
        ("video/mp4; codecs=\"avc1\"", false),
        ("audio/mp4, codecs=\"mp4a\"", false),
    ];
    for (content, good) in cases {
        assert!(rt; is_granted(rt.alloc(), None, Some(content))? == good);
    }
    assert!(rt;
        !is_granted(
            rt.alloc(),
            Some("video/mp4; codecs=avc1"),
            Some("audio/mp4; codecs=avc1")
        )?
    );
    Ok(())
}

#[test]
fn the_first_supported_configuration_is_granted(rt: HostRuntime) -> Result<(), Fail> {
    let unsupported =
        "[{\"videoCapabilities\":[{\"contentType\":\"video/mp4; codecs=\\\"xyz1\\\"\"}]},\
{\"initDataTypes\":[\"webm\",\"cenc\"],\"videoCapabilities\":[";
    let good = "{\"contentType\":\"video/mp4; codecs=\\\"avc1.42E01E\\\"\"}]}]";
    let empty = "{\"contentType\":\"\"},";
    let alone = format!(in rt.alloc(); "{unsupported}{good}")?;
    let beside_empty = format!(in rt.alloc(); "{unsupported}{empty}{good}")?;
    let text = granted(rt.alloc(), "org.w3.clearkey", &alone)?;
    assert!(rt;
        text.as_str()
            == "{\"label\":\"\",\"initDataTypes\":[\"cenc\"],\"audioCapabilities\":[],\
\"videoCapabilities\":[{\"contentType\":\"video/mp4; codecs=\\\"avc1.42E01E\\\"\",\"robustness\":\"\"}],\
\"distinctiveIdentifier\":\"not-allowed\",\"persistentState\":\"not-allowed\",\"sessionTypes\":[\"temporary\"]}"
    );
    let text = granted(rt.alloc(), "org.w3.clearkey", &beside_empty)?;
    assert!(rt; text.as_str() == "NotSupported");
    let text = granted(rt.alloc(), "", &alone)?;
    assert!(rt; text.as_str() == "TypeFault");
    Ok(())
}

// A list of one configuration with a good video capability and further members.
fn with_members(alloc: Global, members: &str) -> Result<String, AllocError> {
    format!(in alloc;
        "[{{\"videoCapabilities\":[{{\"contentType\":\"video/mp4; codecs=avc1\"}}]{members}}}]"
    )
}

#[test]
fn each_member_counts(rt: HostRuntime) -> Result<(), Fail> {
    let cases = [
        ("", true),
        (",\"more\":null", true),
        (",\"initDataTypes\":[]", true),
        (",\"initDataTypes\":[\"webm\",\"keyids\"]", true),
        (",\"initDataTypes\":[\"webm\"]", false),
        (",\"initDataTypes\":[\"CENC\"]", false),
        (",\"distinctiveIdentifier\":\"not-allowed\"", true),
        (",\"distinctiveIdentifier\":\"required\"", false),
        (",\"persistentState\":\"optional\"", true),
        (",\"persistentState\":\"required\"", false),
        (",\"sessionTypes\":[]", true),
        (
            ",\"sessionTypes\":[\"temporary\",\"persistent-license\"]",
            false,
        ),
        (",\"sessionTypes\":[\"persistent-usage-record\"]", false),
        (",\"audioCapabilities\":[]", true),
        (
            ",\"audioCapabilities\":[{\"contentType\":\"audio/mp4; codecs=avc1\"}]",
            false,
        ),
        (
            ",\"audioCapabilities\":[{\"contentType\":\"audio/mp4; codecs=mp4a\"},{}]",
            false,
        ),
        (
            ",\"audioCapabilities\":[{\"contentType\":\"audio/mp4; codecs=mp4a\",\"robustness\":\"high\"}]",
            false,
        ),
    ];
    for (members, good) in cases {
        let list = with_members(rt.alloc(), members)?;
        let text = granted(rt.alloc(), "org.w3.clearkey", &list)?;
        assert!(rt; (text.as_str() != "NotSupported") == good);
    }
    Ok(())
}

#[test]
fn names_and_empty_lists(rt: HostRuntime) -> Result<(), Fail> {
    let good = with_members(rt.alloc(), "")?;
    let cases = [
        ("", good.as_str(), "TypeFault"),
        ("com.example", good.as_str(), "NotSupported"),
        ("org.w3.ClearKey", good.as_str(), "NotSupported"),
        ("com.example", "[]", "TypeFault"),
        ("org.w3.clearkey", "[]", "TypeFault"),
        ("org.w3.clearkey", "[{}]", "NotSupported"),
        ("org.w3.clearkey", "{}", "unread"),
    ];
    for (name, list, wanted) in cases {
        let text = granted(rt.alloc(), name, list)?;
        assert!(rt; text.as_str() == wanted);
    }
    Ok(())
}

#[test]
fn what_is_supported_is_kept(rt: HostRuntime) -> Result<(), Fail> {
    let list = "[{\"sessionTypes\":[\"temporary\",\"temporary\"],\"label\":\"a\\u0022b\",\
\"initDataTypes\":[\"keyids\",\"webm\",\"cenc\"],\"audioCapabilities\":[\
{\"contentType\":\"audio/mp4; codecs=mp4a\",\"robustness\":\"high\"},{\"contentType\":\"audio/mp4; codecs=Opus\"},\
{\"contentType\":\"audio/webm; codecs=opus\"},{\"contentType\":\"audio/mp4; codecs=ac-3\",\"robustness\":\"\"}]}]";
    let text = granted(rt.alloc(), "org.w3.clearkey", list)?;
    assert!(rt;
        text.as_str()
            == "{\"label\":\"a\\\"b\",\"initDataTypes\":[\"keyids\",\"cenc\"],\"audioCapabilities\":[\
{\"contentType\":\"audio/mp4; codecs=Opus\",\"robustness\":\"\"},{\"contentType\":\"audio/mp4; codecs=ac-3\",\"robustness\":\"\"}],\
\"videoCapabilities\":[],\"distinctiveIdentifier\":\"not-allowed\",\"persistentState\":\"not-allowed\",\
\"sessionTypes\":[\"temporary\",\"temporary\"]}"
    );
    Ok(())
}

#[test]
fn configurations_are_written_as_they_were_read(rt: HostRuntime) -> Result<(), Fail> {
    let cases = [
        ("[]", "none"),
        (
            " [ { } ] ",
            "{\"label\":\"\",\"initDataTypes\":[],\"audioCapabilities\":[],\"videoCapabilities\":[],\
\"distinctiveIdentifier\":\"optional\",\"persistentState\":\"optional\",\"sessionTypes\":[\"temporary\"]}",
        ),
        (
            "[{\"persistentState\":\"required\",\"distinctiveIdentifier\":\"not-allowed\",\"sessionTypes\":[],\
\"videoCapabilities\":[{}],\"audioCapabilities\":[{\"robustness\":\"r\",\"more\":1}],\
\"label\":\"\\/\\b\\f\\n\\r\\t\\u001F\\u00e9\\\\\"}]",
            "{\"label\":\"/\\b\\f\\n\\r\\t\\u001fé\\\\\",\"initDataTypes\":[],\"audioCapabilities\":[{\"contentType\":\"\",\"robustness\":\"r\"}],\
\"videoCapabilities\":[{\"contentType\":\"\",\"robustness\":\"\"}],\"distinctiveIdentifier\":\"not-allowed\",\
\"persistentState\":\"required\",\"sessionTypes\":[]}",
        ),
    ];
    for (list, wanted) in cases {
        let text = written(rt.alloc(), list.as_bytes())?;
        assert!(rt; text.as_str() == wanted);
    }
    Ok(())
}

#[test]
fn what_is_no_list_of_configurations(rt: HostRuntime) -> Result<(), Fail> {
    let cases = [
        ("", "Json"),
        ("[{]", "Json"),
        ("[{\"more\":01}]", "Json"),
        ("{}", "Shape"),
        ("[[]]", "Shape"),
        ("[{},null]", "Shape"),
        ("[{\"label\":null}]", "Shape"),
        ("[{\"label\":1}]", "Shape"),
        ("[{\"initDataTypes\":\"cenc\"}]", "Shape"),
        ("[{\"initDataTypes\":[\"cenc\",1]}]", "Shape"),
        ("[{\"audioCapabilities\":[[]]}]", "Shape"),
        ("[{\"videoCapabilities\":{}}]", "Shape"),
        (
            "[{\"videoCapabilities\":[{\"contentType\":false}]}]",
            "Shape",
        ),
        ("[{\"videoCapabilities\":[{\"robustness\":null}]}]", "Shape"),
        ("[{\"distinctiveIdentifier\":\"Required\"}]", "Shape"),
        ("[{\"persistentState\":null}]", "Shape"),
        ("[{\"sessionTypes\":null}]", "Shape"),
    ];
    for (list, wanted) in cases {
        let text = written(rt.alloc(), list.as_bytes())?;
        assert!(rt; text.as_str() == wanted);
    }
    let text = written(rt.alloc(), b"[{\"label\":\"\xff\"}]")?;
    assert!(rt; text.as_str() == "Json");
    Ok(())
}
