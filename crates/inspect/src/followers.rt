// What follows a segment, in version 2, and the rules of row 27, numbers as C is told them, and of row 28.
use format::Following;
use std::io;

// The following segments of an accepted file, and the share to the first.
pub(crate) fn summary(rt: &impl Print, f: Following) -> io::Result<()> {
    if f.first == 0 {
        return print!(rt; ", followed by none");
    }
    if f.second == 0 {
        return print!(rt; ", followed by segment {}", f.first);
    }
    print!(rt; ", followed by segments {} and {}", f.first, f.second)?;
    print!(rt; ", {} thousandths to the first", f.share)
}

// What the follower of segment i, of n, must be that breaks a rule.
fn tell_right(rt: &impl Print, i: u32, n: u64, f: Following, rule: u64) -> io::Result<()> {
    match rule {
        0 => print!(rt; "above the segment's own number, {}", u64::from(i) + 1),
        1 => print!(rt; "at most the number of segments, {n}"),
        2 => print!(rt; "0 without a first"),
        _ => print!(rt; "another than the first, {}", f.first),
    }
}

// The first or the second following segment of segment i, and which rule it breaks; it stands at place at.
pub(crate) fn tell(rt: &impl Print, file: &[u8], i: u32, rule: u64, at: u64) -> io::Result<()> {
    let number = u64::from(i) + 1;
    let f = network::segment_of(file, i).following;
    if at == network::record_start(file, i) + 16 {
        print!(rt;
            "segment {number}, first following segment: {}, must be ",
            f.first
        )?;
    } else {
        print!(rt;
            "segment {number}, second following segment: {}, must be ",
            f.second
        )?;
    }
    tell_right(rt, i, network::head_of(file).size, f, rule)
}

// Row 28.
pub(crate) fn tell_origin(rt: &impl Print, file: &[u8], i: u32) -> io::Result<()> {
    let number = u64::from(i) + 1;
    let origin = network::segment_of(file, i).origin;
    print!(rt; "segment {number}, origin: {origin}, must be 1 where no segment goes on to this one")
}
