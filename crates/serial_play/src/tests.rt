//! Serial plays of scripts, and schedules of a core that end with their answer. Plays of the program stand in `checks`.
mod answer;
mod examples;
mod rows;
mod schedule;

ghost use Rattle.std.specs.Prelude.{IfOk};
ghost use Rattle.eme_types.specs.Fed.{IsFed};
ghost use Rattle.script_lang.specs.Paced.{IsPaced};

use crate::serial_end;
use answer::{answer_by, answer_of};
use cdm_state::Cdm;
use eme_types::Media;
use examples as ex;
use rows as row;
use schedule::carry_out;
use script_lang::{Script, is_paced, read_script};
use std::alloc::Global;
use std::str::from_utf8;
use std::test::Fail;
use track_media::parse_media;

/// The script with a settle behind each line that is none.
fn with_settles(alloc: Global, text: &[u8]) -> Result<String, Fail> {
    let mut paced = String::from_str(alloc, "EMES 1\n")?;
    for line in from_utf8(text)?.lines() {
        if line != "EMES 1" && line != "0 settle" {
            write!(&mut paced, "{line}\n0 settle\n")?;
        }
    }
    Ok(paced)
}

/// The script, or, where it is not paced, it with a settle behind each line.
fn paced_script(alloc: Global, text: &[u8]) -> Result<Script, Fail>
    ensures { IfOk result (λ script. IsPaced script) }
{
    let script = read_script(alloc, text)?;
    if is_paced(&script) {
        return Ok(script);
    }
    let text = with_settles(alloc, text)?;
    let script = read_script(alloc, text.as_str().as_bytes())?;
    if is_paced(&script) {
        return Ok(script);
    }
    Err(Fail::from("not paced"))
}

/// Whether the script is agreeing, and what its serial play gives.
fn given(alloc: Global, script: &[u8], media: &[u8]) -> Result<(bool, String), Fail> {
    let script = paced_script(alloc, script)?;
    let media = parse_media(alloc, media)?;
    let end = serial_end(alloc, &script, &media)?;
    let answer = answer_of(alloc, &end)?;
    Ok((end.agreeing, answer))
}

/// What a schedule ends with; where a word of it was not allowed, that word.
fn ended(alloc: Global, script: &Script, media: &Media, words: &str) -> Result<String, Fail>
    requires { IsFed media.now }
{
    let mut cdm = Cdm::new(alloc, &media.tracks)?;
    let wrong = carry_out(alloc, &mut cdm, script.as_slice(), media, words)?;
    if wrong.is_empty() {
        answer_by(alloc, &cdm)
    } else {
        Ok(wrong)
    }
}

/// The first of the schedules, a front and a line of a text, that does not end with what is wanted.
fn differing(
    alloc: Global,
    script: &[u8],
    media: &[u8],
    front: &str,
    schedules: &[u8],
    want: &[u8],
) -> Result<String, Fail> {
    let script = paced_script(alloc, script)?;
    let media = parse_media(alloc, media)?;
    for schedule in from_utf8(schedules)?.lines() {
        if !schedule.is_empty() {
            let words = format!(in alloc; "{front} {schedule}")?;
            let end = ended(alloc, &script, &media, words.as_str())?;
            if end.as_str().as_bytes() != want {
                return Ok(format!(in alloc; "{schedule}: {end}")?);
            }
        }
    }
    Ok(String::new(alloc))
}

#[test]
fn each_schedule_ends_with_the_serial_answer(rt: HostRuntime) -> Result<(), Fail> {
    let alloc = rt.alloc();
    for (script, media, schedules, want) in [
        (row::GRANTED, row::ONE_SAMPLE, row::ONE_CLAIM, row::ONE_OUT),
        (row::NOT_FED, row::ONE_SAMPLE, row::LEFT, row::ONE_OUT),
        (row::GRANTED, row::TWO_TRACKS, row::MIXED, row::BOTH_OUT),
        (row::SECOND_KEY, row::HEADLESS, row::HELD, row::ALL_OUT),
        (row::OTHER_KEY, row::HEADLESS, row::REPLACED, row::OTHER_OUT),
        (row::KEY_AGAIN, row::HEADLESS, row::KEPT, row::AGAIN_OUT),
        (row::RENEWED, row::HEADLESS, row::EXPIRED, row::AGAIN_OUT),
        (row::RELEASED, row::HEADLESS, row::REMOVED, row::AGAIN_OUT),
        (
            row::TWO_HOLDERS,
            row::HEADLESS,
            row::CLOSED,
            row::HOLDERS_OUT,
        ),
        (row::LOST, row::HEADLESS, row::EVICTED, row::LOST_OUT),
    ] {
        let (agreeing, answer) = given(alloc, script, media)?;
        assert!(rt; agreeing);
        assert_eq!(rt; answer.as_str().as_bytes(), want);
        let wrong = differing(alloc, script, media, row::GRANT, schedules, want)?;
        assert_eq!(rt; wrong.as_str(), "");
    }
    Ok(())
}

#[test]
fn a_script_that_does_not_agree_has_another_answer_too(rt: HostRuntime) -> Result<(), Fail> {
    let alloc = rt.alloc();
    for (script, media, want) in [
        (row::AT_ODDS, row::TWO_KIDS, row::BY_THE_FIRST),
        (row::TWO_KEYS, row::ONE_SAMPLE, row::TWO_KEYS_OUT),
    ] {
        let (agreeing, answer) = given(alloc, script, media)?;
        assert!(rt; !agreeing);
        assert_eq!(rt; answer.as_str().as_bytes(), want);
    }
    for (schedules, want) in [
        (row::ALONE, row::BY_THE_SECOND),
        (row::GIVEN_UP, row::BY_THE_FIRST),
    ] {
        let front = row::BOTH_OPENED;
        let wrong = differing(alloc, row::AT_ODDS, row::TWO_KIDS, front, schedules, want)?;
        assert_eq!(rt; wrong.as_str(), "");
    }
    Ok(())
}

#[test]
fn each_example_has_its_answer(rt: HostRuntime) -> Result<(), Fail> {
    for (script, media, want) in [
        (ex::NOTHING, ex::NO_MEDIA, ex::NOTHING_GIVES),
        (
            ex::FRAGMENT_LEFT,
            ex::FRAGMENT_LEFT_MEDIA,
            ex::FRAGMENT_LEFT_GIVES,
        ),
        (ex::ACCESS, ex::NO_MEDIA, ex::ACCESS_GIVES),
        (ex::ACCESS_REFUSED, ex::NO_MEDIA, ex::ACCESS_REFUSED_GIVES),
        (
            ex::ACCESS_WITHOUT_NAME,
            ex::NO_MEDIA,
            ex::ACCESS_WITHOUT_NAME_GIVES,
        ),
        (
            ex::CLEAR_BESIDE_PROTECTED,
            ex::CLEAR_BESIDE_PROTECTED_MEDIA,
            ex::CLEAR_BESIDE_PROTECTED_GIVES,
        ),
        (
            ex::CLOSE_AND_REOPEN,
            ex::CLOSE_AND_REOPEN_MEDIA,
            ex::CLOSE_AND_REOPEN_GIVES,
        ),
        (ex::CLOSED_SESSION, ex::NO_MEDIA, ex::CLOSED_SESSION_GIVES),
        (ex::EVICTION, ex::NO_MEDIA, ex::EVICTION_GIVES),
        (ex::EXPIRY, ex::EXPIRY_MEDIA, ex::EXPIRY_GIVES),
        (
            ex::KEY_ROTATION,
            ex::KEY_ROTATION_MEDIA,
            ex::KEY_ROTATION_GIVES,
        ),
        (ex::NO_KEY, ex::NO_KEY_MEDIA, ex::NO_KEY_GIVES),
        (ex::ONE_SAMPLE, ex::ONE_SAMPLE_MEDIA, ex::ONE_SAMPLE_GIVES),
        (ex::REJECTIONS, ex::NO_MEDIA, ex::REJECTIONS_GIVES),
        (
            ex::TWO_SESSIONS,
            ex::TWO_SESSIONS_MEDIA,
            ex::TWO_SESSIONS_GIVES,
        ),
        (
            ex::USABLE_LATER,
            ex::ONE_SAMPLE_MEDIA,
            ex::USABLE_LATER_GIVES,
        ),
    ] {
        let (agreeing, answer) = given(rt.alloc(), script, media)?;
        assert!(rt; agreeing);
        assert_eq!(rt; answer.as_str().as_bytes(), want);
    }
    Ok(())
}

#[test]
fn a_script_without_a_settle_behind_a_line_is_not_paced(rt: HostRuntime) -> Result<(), Fail> {
    let script = read_script(rt.alloc(), ex::ONE_SAMPLE)?;
    assert!(rt; !is_paced(&script));
    Ok(())
}
