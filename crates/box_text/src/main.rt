//! Prints what is read of each `moov` and `moof` of the file `media` in the folder that it runs in. A tool for the check of real files.
#![tactic(auto)]

ghost use Rattle.std.specs.Prelude.{◌+◌, ◌<◌, ◌^◌, length};

use frag_boxes::{Moof, Movie, Span, read_moof, read_moov};
use iso_boxes::{BoxRef, Boxes};
use std::{fs, io};

/// A line for each box: its name, its place, that of its body, and the length of its body.
fn spans(rt: &impl Print, name: &str, list: &[Span]) -> io::Result<()> {
    for s in list {
        println!(rt; "  {name} {} {} {}", s.place, s.body_place, s.len)?;
    }
    Ok(())
}

fn movie_text(rt: &impl Print, m: &Movie) -> io::Result<()> {
    println!(rt; "movie {}", m.place)?;
    spans(rt, "pssh", m.psshs.as_slice())?;
    for t in m.tracks.as_slice() {
        println!(rt; " track {} {}", t.place, t.id)?;
        for e in t.entries.as_slice() {
            println!(rt; " entry {}", e.place)?;
            spans(rt, "sinf", e.sinfs.as_slice())?;
        }
        spans(rt, "sgpd", t.groups.as_slice())?;
        match t.trex {
            Some(x) => println!(rt;
                " trex {} {} {} {} {}",
                x.place, x.description, x.duration, x.size, x.flags
            )?,
            None => println!(rt; " no trex")?,
        }
    }
    Ok(())
}

fn moof_text(rt: &impl Print, m: &Moof) -> io::Result<()> {
    println!(rt; "moof {}", m.place)?;
    spans(rt, "pssh", m.psshs.as_slice())?;
    for t in m.trafs.as_slice() {
        let h = t.tfhd;
        println!(rt;
            " traf {} tfhd {} {} {} {:?} {:?} {:?} {:?} {:?}",
            t.place,
            h.place,
            h.track,
            h.flags,
            h.base,
            h.description,
            h.duration,
            h.size,
            h.sample_flags
        )?;
        for r in t.runs.as_slice() {
            println!(rt;
                " trun {} {} {:?} {:?}",
                r.place, r.count, r.offset, r.first_flags
            )?;
            for i in r.items.as_slice() {
                println!(rt;
                    "  item {:?} {:?} {:?} {:?}",
                    i.duration, i.size, i.flags, i.composition
                )?;
            }
        }
        spans(rt, "senc", t.senc.as_slice())?;
        spans(rt, "saiz", t.saiz.as_slice())?;
        spans(rt, "saio", t.saio.as_slice())?;
        spans(rt, "sgpd", t.sgpd.as_slice())?;
        spans(rt, "sbgp", t.sbgp.as_slice())?;
    }
    Ok(())
}

fn one(rt: &(impl Print + AllocGlobal), at: &BoxRef<'_>) -> io::Result<()>
    requires { at.now.body_place + length at.now.body.now < 2 ^ 64 }
{
    if at.kind == *b"moov" {
        match read_moov(rt.alloc(), at) {
            Ok(m) => movie_text(rt, &m)?,
            Err(f) => println!(rt; "refused {:?} {}", f.kind, f.place)?,
        }
    }
    if at.kind == *b"moof" {
        match read_moof(rt.alloc(), at) {
            Ok(m) => moof_text(rt, &m)?,
            Err(f) => println!(rt; "refused {:?} {}", f.kind, f.place)?,
        }
    }
    Ok(())
}

fn main(rt: HostRuntime) -> io::Result<()> {
    let bytes = fs::read(&rt, "media")?;
    let mut boxes = Boxes::new(bytes.as_slice(), 0, true);
    loop {
        match boxes.next_box() {
            Ok(Some(at)) => one(&rt, &at)?,
            Ok(None) => return Ok(()),
            Err(fault) => {
                println!(rt; "header {fault:?}")?;
                return Ok(());
            }
        }
    }
}
