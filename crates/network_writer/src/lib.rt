// A network kept in words, written back as the bytes of its file.
#![tactic(auto)]

ghost use Rattle.std.specs.Prelude.{◌≡◌, ◌+◌, ◌*◌, ◌≤◌, ◌++◌, length, get_or, take, drop};
ghost use Rattle.laws.specs.Lists.{puts};
ghost use Rattle.laws.specs.BigEndian.{low, u32_bytes};
ghost use Rattle.format.specs.Written.{head_bytes, file_of};
ghost use Rattle.format.specs.Words.{head_in, segment_in, network_in, kept_number};
ghost use Rattle.format.proofs.Accepted.{HeadWithin};
ghost use Rattle.format.specs.File.{file_size};
ghost use Rattle.format.proofs.Record.{long_bytes};

use arrays::number;
use format::{Head, Segment};

// The lowest byte of x: all of a number that takes one byte in the file. `x as u8` would ask that x is below 256.
fn low(x: u64) -> u8
    ensures { result ≡ low x }
{
    let [.., low] = x.to_be_bytes();
    low
}

// Puts the head over the first 16 bytes.
#[tactic(auto, unfolding(format::specs::Written::head_bytes))]
fn put_head(out: &mut [u8], h: Head)
    requires { 16 ≤ length out.old }
    ensures { out.new ≡ head_bytes h ++ drop 16 out.old }
{
    let [f, w, n] = *b"FWN";
    let [.., version_high, version_low] = h.version.to_be_bytes();
    let [.., delta_high, delta_low] = h.delta.to_be_bytes();
    let head = [
        f,
        w,
        n,
        version_high,
        version_low,
        low(h.step),
        low(h.size),
        low(h.curves),
        low(h.tau),
        low(h.nu),
        low(h.kappa),
        0,
        delta_high,
        delta_low,
        0,
        0,
    ];
    out[..16].copy_from_slice(&head);
}

// The 20 bytes of a version 2 record, one a line as the format lists them; the first 16 of them are a version 1 record.
#[tactic(auto, unfolding(format::proofs::Record::long_bytes))]
fn record_bytes(s: Segment) -> [u8; 20]
    ensures { result ≡ long_bytes s }
{
    let f = s.following;
    let [.., metres_high, metres_low] = s.metres.to_be_bytes();
    let [.., exit_high, exit_low] = s.exit.to_be_bytes();
    let [.., most_3, most_2, most_1, most_0] = s.most.to_be_bytes();
    let [.., share_high, share_low] = f.share.to_be_bytes();
    [
        metres_high,
        metres_low,
        low(s.lanes),
        low(s.curve),
        low(s.critical),
        low(s.jam),
        low(s.origin),
        0,
        exit_high,
        exit_low,
        most_3,
        most_2,
        most_1,
        most_0,
        0,
        0,
        low(f.first),
        low(f.second),
        share_high,
        share_low,
    ]
}

// Puts entries at byte 16; by index, as put_records.
#[tactic(auto, using(crate::proofs::Writing::entry_loop))]
fn put_entries(entries: &[u64], out: &mut [u8])
    requires { 16 + 4 * length entries.now ≤ length out.old }
    ensures { out.new ≡ puts 4 (λ j. u32_bytes (get_or entries.now j 0)) 16 (length entries.now) out.old }
{
    for (j, entry) in entries.iter().enumerate() {
        let at = 16 + 4 * j;
        number::put_u32(&mut out[at..at + 4], *entry);
    }
}

// Puts n records from byte at on, of each its first w bytes. By index: of bytes that chunks_exact_mut lends nothing is known afterwards. The
// segment is read with a test of each word: without, each call would have to say that it is one of 40.
#[tactic(auto, using(crate::proofs::Writing::record_loop))]
fn put_records(kept: &[u64], n: u32, w: usize, out: &mut [u8], at: usize)
    requires { (w ≤ 20) × (at + w * n ≤ length out.old) }
    ensures { out.new ≡ puts w (λ i. take w (long_bytes (segment_in kept.now i))) at n out.old }
{
    for i in 0..n {
        let from = at + w * (i as usize);
        let record = record_bytes(network_words::kept_segment(kept, i));
        out[from..from + w].copy_from_slice(&record[..w]);
    }
}

// The bytes of the file of a network with this head. Of a file of any content network::size_said says it, by two of its bytes.
pub fn file_size(h: Head) -> u64
    requires { HeadWithin h }
    ensures { result ≡ file_size h }
{
    network::curve_start(h.curves as u32) + network::record_size(h) * h.size
}

// Writes the kept network, which network_words::check accepts, as a file over the buffer's first bytes; later bytes stay.
#[tactic(auto, using(crate::proofs::Writing::write_bounds))]
pub fn write(kept: &[u64], out: &mut [u8])
    requires kept_value { kept_number kept.now ≡ 0 }
    requires kept_in_bounds { file_size (head_in kept.now) ≤ length out.old }
    ensures { out.new ≡ file_of (network_in kept.now) ++ drop (file_size (head_in kept.now)) out.old }
{
    let h = network_words::kept_head(kept);
    let c = h.curves as usize;
    let w = network::record_size(h) as usize;
    put_head(out, h);
    put_entries(&kept[16..16 + 201 * c], out);
    let at = network::curve_start(h.curves as u32) as usize;
    put_records(kept, h.size as u32, w, out, at);
}
