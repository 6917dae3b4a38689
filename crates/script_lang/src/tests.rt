use crate::{Action, ScriptFault, ScriptKind, is_paced, read_script};
use eme_types::AppCall;
use std::alloc::Global;
use std::process::Abort;
use std::test::Fail;

// Tests that a script is refused at this line, by this kind.
fn refused(rt: &impl Abort, alloc: Global, text: &[u8], line: u32, kind: ScriptKind) {
    match read_script(alloc, text) {
        Ok(_) => assert!(rt; false, "accepted"),
        Err(fault) => assert_eq!(rt; fault, ScriptFault::Refused { line, kind }),
    }
}

#[test]
fn each_kind_has_its_line(rt: HostRuntime) -> Result<(), Fail> {
    for (text, line, kind) in [
        (b"".as_slice(), 1, ScriptKind::Header),
        (b"EMES 2\n0 feed\n".as_slice(), 1, ScriptKind::Header),
        (b"EMES 1\n# \xc3\n9 feed".as_slice(), 2, ScriptKind::NotUtf8),
        (b"EMES 1\n9 feed".as_slice(), 2, ScriptKind::Lane),
        (b"EMES 1\n0 jump".as_slice(), 2, ScriptKind::Verb),
        (b"EMES 1\n1 feed".as_slice(), 2, ScriptKind::LaneKind),
        (b"EMES 1\n1 evict a".as_slice(), 2, ScriptKind::LaneKind),
        (b"EMES 1\n0 feed x".as_slice(), 2, ScriptKind::Words),
        (b"EMES 1\n0 evict".as_slice(), 2, ScriptKind::Words),
        (b"EMES 1\n0 evict a b".as_slice(), 2, ScriptKind::Words),
        (b"EMES 1\n\n#\n0 close A\n".as_slice(), 4, ScriptKind::Label),
        (b"EMES 1\n0 evict A\n".as_slice(), 2, ScriptKind::Label),
        (
            b"EMES 1\n0 create a temporary\n0 create a temporary\n".as_slice(),
            3,
            ScriptKind::DuplicateLabel,
        ),
        (b"EMES 1\n0 update a L1".as_slice(), 2, ScriptKind::Form),
        (
            b"EMES 1\n0 certificate hex:0".as_slice(),
            2,
            ScriptKind::Hex,
        ),
        (
            b"EMES 1\n0 clock 9007199254740993".as_slice(),
            2,
            ScriptKind::Number,
        ),
        (
            b"EMES 1\n0 clock 5\n0 clock 4\n".as_slice(),
            3,
            ScriptKind::ClockBack,
        ),
    ] {
        refused(&rt, rt.alloc(), text, line, kind);
    }
    Ok(())
}

// Each line breaks several rules, and is refused by the first of them.
#[test]
fn kinds_are_tried_in_order(rt: HostRuntime) -> Result<(), Fail> {
    for (line, kind) in [
        (b"EMES 1\nx jump \xff".as_slice(), ScriptKind::NotUtf8),
        (b"EMES 1\n00 jump".as_slice(), ScriptKind::Lane),
        (b"EMES 1\n feed".as_slice(), ScriptKind::Lane),
        (b"EMES 1\n1  A".as_slice(), ScriptKind::Verb),
        (b"EMES 1\n1 clock".as_slice(), ScriptKind::LaneKind),
        (b"EMES 1\n7 evict A b".as_slice(), ScriptKind::LaneKind),
        (b"EMES 1\n0 evict A ".as_slice(), ScriptKind::Words),
        (b"EMES 1\n0 update A  text:".as_slice(), ScriptKind::Words),
        (b"EMES 1\n0 update A hex:0 0".as_slice(), ScriptKind::Words),
        (b"EMES 1\n0 clock 01 ".as_slice(), ScriptKind::Words),
        (b"EMES 1\n0 update A L1".as_slice(), ScriptKind::Label),
        (b"EMES 1\n0 update a hex".as_slice(), ScriptKind::Form),
        (b"EMES 1\n0 clock 01".as_slice(), ScriptKind::Number),
        (b"EMES 1\n0 clock -1".as_slice(), ScriptKind::Number),
    ] {
        refused(&rt, rt.alloc(), line, 2, kind);
    }
    Ok(())
}

#[test]
fn scripts_have_their_lines(rt: HostRuntime) -> Result<(), Fail> {
    for (text, count) in [
        (b"EMES 1".as_slice(), 0),
        (b"EMES 1\n\n# a line\n\n".as_slice(), 0),
        (b"EMES 1\n0 feed\n\n0 settle".as_slice(), 2),
        (
            b"EMES 1\n0 clock 0\n0 clock 9007199254740992\n".as_slice(),
            2,
        ),
        (b"EMES 1\n7 access - hex:\n".as_slice(), 1),
        (b"EMES 1\n0 evict a\n0 evict a".as_slice(), 2),
        (
            b"EMES 1\n0 create abcdefghijklmnopqrstuvwxyz_01234 -\n7 remove a\n".as_slice(),
            2,
        ),
    ] {
        let script = read_script(rt.alloc(), text)?;
        assert_eq!(rt; script.len(), count);
    }
    let long = b"EMES 1\n0 create abcdefghijklmnopqrstuvwxyz_012345 -\n";
    refused(&rt, rt.alloc(), long, 2, ScriptKind::Label);
    Ok(())
}

#[test]
fn lines_mean_their_actions(rt: HostRuntime) -> Result<(), Fail> {
    let text =
        b"EMES 1\n# data\n3 request a_1 keyids text: {} \n0 access - hex:0aFF\n0 evict b_2\n";
    let script = read_script(rt.alloc(), text)?;
    let [first, second, third] = script.as_slice() else {
        assert!(rt; false, "three lines");
        return Ok(());
    };
    assert_eq!(rt; first.number, 3);
    assert_eq!(rt; first.lane, 3);
    match &first.action {
        Action::Ask(AppCall::Request { label, kind, init }) => {
            assert_eq!(rt; label.as_slice(), b"a_1".as_slice());
            assert_eq!(rt; kind.as_slice(), b"keyids".as_slice());
            assert_eq!(rt; init.as_slice(), b" {} ".as_slice());
        }
        _ => assert!(rt; false, "a request"),
    }
    match &second.action {
        Action::Ask(AppCall::Access { name, list }) => {
            assert_eq!(rt; name.len(), 0);
            assert_eq!(rt; list.as_slice(), [10, 255].as_slice());
        }
        _ => assert!(rt; false, "an access"),
    }
    assert_eq!(rt; third.lane, 0);
    match &third.action {
        Action::Evict(label) => assert_eq!(rt; label.as_slice(), b"b_2".as_slice()),
        _ => assert!(rt; false, "an eviction"),
    }
    Ok(())
}

// 4,096 lines, the last with its line feed, are a script; a line 4,097 is refused.
#[test]
fn lines_are_counted(rt: HostRuntime) -> Result<(), Fail> {
    let mut text = Vec::from_slice(rt.alloc(), b"EMES 1\n")?;
    for _ in 1..4096u32 {
        text.push(b'\n')?;
    }
    let script = read_script(rt.alloc(), &text)?;
    assert_eq!(rt; script.len(), 0);
    text.push(b'\n')?;
    refused(&rt, rt.alloc(), &text, 4097, ScriptKind::TooManyLines);
    text.pop();
    text.push(0xff)?;
    refused(&rt, rt.alloc(), &text, 4097, ScriptKind::NotUtf8);
    Ok(())
}

// A settle stands behind each line but the last, all on lane 0; blank lines and notes do not count.
#[test]
fn paced_scripts_settle_behind_each_line(rt: HostRuntime) -> Result<(), Fail> {
    for (text, paced) in [
        (b"EMES 1\n".as_slice(), true),
        (
            b"EMES 1\n0 settle\n0 feed\n# note\n0 settle\n0 settle\n0 close a\n".as_slice(),
            true,
        ),
        (b"EMES 1\n0 feed\n0 clock 5\n0 settle\n".as_slice(), false),
        (
            b"EMES 1\n0 feed\n0 settle\n0 clock 5\n0 close a\n".as_slice(),
            false,
        ),
        (
            b"EMES 1\n0 feed\n0 settle\n7 close a\n0 settle\n".as_slice(),
            false,
        ),
    ] {
        let script = read_script(rt.alloc(), text)?;
        assert_eq!(rt; is_paced(&script), paced);
    }
    Ok(())
}
