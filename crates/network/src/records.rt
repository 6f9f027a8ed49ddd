// A segment's record, 16 bytes in version 1 and 20 in version 2, read.
ghost use Rattle.std.specs.Prelude.{◌≡◌, ◌<◌, ◌≤◌, length};
ghost use Rattle.format.specs.File.{record_size, following_of, segment_at, record_padding};

use crate::rows;
use arrays::number;
use format::{Following, Head, Segment};

// What follows segment i: in version 2 the last four bytes of its record say it. In a part of constant length no byte needs a test.
#[tactic(auto, using(format::proofs::File::record_two, format::proofs::File::said_part), unfolding(format::specs::File::following_of))]
pub(crate) fn following(bytes: &[u8], h: Head, i: u32) -> Following
    requires { record_size h ≤ length bytes.now }
    ensures { result ≡ following_of bytes.now h i 0 }
{
    if h.version == 1 {
        return rows::chain(h.size, i);
    }
    let twenty = &bytes[..20];
    Following {
        first: number::byte_at(twenty, 16),
        second: number::byte_at(twenty, 17),
        share: number::u16_at(twenty, 18),
    }
}

// Segment i, by the bytes of its record. In a part of constant length no byte needs a test.
#[tactic(auto, using(format::proofs::File::record_low, format::proofs::File::fields_part))]
pub(crate) fn read(bytes: &[u8], h: Head, i: u32) -> Segment
    requires { record_size h ≤ length bytes.now }
    ensures { result ≡ segment_at bytes.now h i 0 }
{
    let sixteen = &bytes[..16];
    Segment {
        metres: number::u16_at(sixteen, 0),
        lanes: number::byte_at(sixteen, 2),
        curve: number::byte_at(sixteen, 3),
        critical: number::byte_at(sixteen, 4),
        jam: number::byte_at(sixteen, 5),
        origin: number::byte_at(sixteen, 6),
        exit: number::u16_at(sixteen, 8),
        most: number::u32_in(sixteen, 10),
        following: following(bytes, h, i),
    }
}

// Segment i, where the file ends in its record: a byte past the end reads as 0. Memory is fixed, so its bytes go into an array.
#[tactic(auto, using(crate::proofs::Short::padded_long, crate::proofs::Short::segment_padded))]
pub(crate) fn read_short(bytes: &[u8], h: Head, i: u32) -> Segment
    requires { length bytes.now < 20 }
    ensures { result ≡ segment_at bytes.now h i 0 }
{
    let mut whole = [0; 20];
    whole[..bytes.len()].copy_from_slice(bytes);
    read(&whole, h, i)
}

// Row 7, of the bytes that are zero.
#[tactic(auto, using(format::proofs::File::padding_part))]
pub(crate) fn record_padding(bytes: &[u8]) -> bool
    requires { 16 ≤ length bytes.now }
    ensures { result ≡ record_padding bytes.now 0 }
{
    let sixteen = &bytes[..16];
    (0 < number::byte_at(sixteen, 7)) | (0 < number::u16_at(sixteen, 14))
}
