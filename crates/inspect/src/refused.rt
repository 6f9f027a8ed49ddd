// What refuses a file, and where.
ghost use Rattle.std.specs.Prelude.{◌≡◌, ltb};
ghost use Rattle.laws.specs.First.{row};
ghost use Rattle.format.specs.File.{entry_on};

use crate::{followers, head, record};
use arrays::number;
use laws::Refusal;
use places::Place;
use std::io;

fn tell_version(rt: &impl Print, file: &[u8]) -> io::Result<()> {
    let version = network::head_of(file).version;
    print!(rt; "version: {version}, must be 1 or 2")
}

fn tell_length(rt: &impl Print, file: &[u8]) -> io::Result<()> {
    let h = network::head_of(file);
    let (size, said) = (file.len(), network::size_said(file));
    let more = if size < crate::MOST_READ {
        ""
    } else {
        " or more"
    };
    print!(rt; "length: {size} bytes{more}, must be {said}, as the head says")?;
    print!(rt; " with {} curves and {} segments", h.curves, h.size)?;
    if h.version != 1 {
        print!(rt; " in version {}", h.version)?;
    }
    Ok(())
}

// Entry j of curve k, of which there are 201, and 0 past them.
#[tactic(auto, unfolding(laws::specs::First::row))]
fn entry(file: &[u8], k: u32, j: u64) -> u64
    ensures { result ≡ row (ltb j 201) (entry_on file.now k j) 0 }
{
    if j < 201 {
        network::entry_of(file, k, j as u32)
    } else {
        0
    }
}

fn tell_curve(rt: &impl Print, file: &[u8], k: u32, j: u64) -> io::Result<()> {
    print!(rt; "curve {k}, entry {j}: {} m/h, ", entry(file, k, j))?;
    if j == 0 {
        return print!(rt; "must be 1000 to 200000");
    }
    let before = entry(file, k, j - 1);
    print!(rt; "must not be above the entry before it, {before}")
}

// Row 8: a vehicle at the speed of an empty road would pass the whole segment in a step.
fn tell_speed(rt: &impl Print, file: &[u8], i: u32) -> io::Result<()> {
    let h = network::head_of(file);
    let s = network::segment_of(file, i);
    let number = u64::from(i) + 1;
    print!(rt; "segment {number}, length L: {} m, too short", s.metres)?;
    print!(rt; " for a step of {} s on curve {}", h.step, s.curve)?;
    if s.curve < 8 {
        let first = network::entry_of(file, s.curve as u32, 0);
        print!(rt; ", which begins with {first} m/h")?;
    }
    Ok(())
}

fn tell_reason(rt: &impl Print, file: &[u8], p: Place) -> io::Result<()> {
    let byte = number::byte_at(file, p.offset as usize);
    match p.refusal {
        Refusal::NoHead => print!(rt; "length: {} bytes, must be 16 or more", file.len()),
        Refusal::NoMark => print!(rt; "mark: {byte}, must be 70 87 78, \"FWN\""),
        Refusal::Version => tell_version(rt, file),
        Refusal::Head => head::tell(rt, file, p.rule),
        Refusal::Length => tell_length(rt, file),
        Refusal::Curve => tell_curve(rt, file, p.part, p.rule),
        Refusal::Record => record::tell(rt, file, p.part, p.rule, byte),
        Refusal::TooFast => tell_speed(rt, file, p.part),
        Refusal::Followers => followers::tell(rt, file, p.part, p.rule, p.offset),
        // NothingEnters: the other refusals are not of a file.
        _ => followers::tell_origin(rt, file, p.part),
    }
}

pub(crate) fn tell(rt: &impl Print, file: &[u8], p: Place) -> io::Result<()> {
    print!(rt; "refused by {} at byte {}: ", p.refusal, p.offset)?;
    tell_reason(rt, file, p)?;
    println!(rt)
}
