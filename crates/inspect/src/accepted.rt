// What an accepted file holds.
use crate::followers;
use arrays::number;
use format::{Head, Segment};
use std::io;

// The version is told where it is not 1, the chain.
fn tell_head(rt: &impl Print, h: Head) -> io::Result<()> {
    print!(rt; "accepted: ")?;
    if h.version != 1 {
        print!(rt; "version {}, ", h.version)?;
    }
    print!(rt;
        "T {} s, n {}, curves {}, tau {} s, ",
        h.step, h.size, h.curves, h.tau
    )?;
    println!(rt;
        "nu {} km2/h, kappa {} veh/km/lane, delta {} thousandths",
        h.nu, h.kappa, h.delta
    )
}

fn tell_ramps(rt: &impl Print, s: Segment) -> io::Result<()> {
    if s.origin == 1 {
        print!(rt; ", origin of at most {} mv a step", s.most)?;
    }
    if 0 < s.exit {
        print!(rt; ", exit of {} thousandths", s.exit)?;
    }
    Ok(())
}

fn tell_segment(rt: &impl Print, file: &[u8], i: u32) -> io::Result<()> {
    let number = u64::from(i) + 1;
    let s = network::segment_of(file, i);
    print!(rt;
        "segment {number}: {} m, {} lanes, curve {}, ",
        s.metres, s.lanes, s.curve
    )?;
    print!(rt; "C {}, J {}", s.critical, s.jam)?;
    tell_ramps(rt, s)?;
    if network::head_of(file).version != 1 {
        followers::summary(rt, s.following)?;
    }
    println!(rt)
}

fn tell_curves(rt: &impl Print, file: &[u8], c: u32) -> io::Result<()> {
    for k in 0..c {
        let first = network::entry_of(file, k, 0);
        let last = network::entry_of(file, k, 200);
        println!(rt; "curve {k}: from {first} m/h at density 0 to {last} m/h at density 200")?;
    }
    Ok(())
}

fn tell_segments(rt: &impl Print, file: &[u8], n: u32) -> io::Result<()> {
    for i in 0..n {
        tell_segment(rt, file, i)?;
    }
    Ok(())
}

pub(crate) fn summary(rt: &impl Print, file: &[u8]) -> io::Result<()> {
    tell_head(rt, network::head_of(file))?;
    tell_curves(rt, file, number::byte_at(file, 7) as u32)?;
    tell_segments(rt, file, number::byte_at(file, 6) as u32)
}
