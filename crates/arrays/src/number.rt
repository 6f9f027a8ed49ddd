// Big-endian numbers in a list of bytes, read and written. A byte past the end reads as 0.
ghost use Rattle.std.specs.Prelude.{◌≡◌, ◌+◌, ◌<◌, ◌≤◌, ◌++◌, length, drop};
ghost use Rattle.laws.specs.BigEndian.{byte_at, u16_at, u32_at, u32_bytes};

pub fn byte_at(b: &[u8], i: usize) -> u64
    ensures { (result ≡ byte_at b.now i) × (result < 256) }
{
    b.get(i).copied().map_or(0, u64::from)
}

pub fn u16_at(b: &[u8], i: usize) -> u64
    requires { i < 100000000000000 }
    ensures { (result ≡ u16_at b.now i) × (result < 65536) }
{
    byte_at(b, i) * 256 + byte_at(b, i + 1)
}

// As u32_at, without a test of the length: loops over a file's entries read thousands.
pub fn u32_in(b: &[u8], i: usize) -> u64
    requires { i + 4 ≤ length b.now }
    ensures { (result ≡ u32_at b.now i) × (result < 4294967296) }
{
    u64::from(u32::from_be_bytes([b[i], b[i + 1], b[i + 2], b[i + 3]]))
}

// One test where all four bytes are there, for Start reads thousands.
pub fn u32_at(b: &[u8], i: usize) -> u64
    requires { i < 10000000000000 }
    ensures { (result ≡ u32_at b.now i) × (result < 4294967296) }
{
    if i + 4 <= b.len() {
        return u32_in(b, i);
    }
    u16_at(b, i) * 65536 + u16_at(b, i + 2)
}

// Writes over the first four bytes of the part that it is lent.
#[tactic(auto, unfolding(laws::specs::BigEndian::u32_bytes))]
pub fn put_u32(out: &mut [u8], x: u64)
    requires { 4 ≤ length out.old }
    ensures { out.new ≡ u32_bytes x ++ drop 4 out.old }
{
    out[..4].copy_from_slice(&x.to_be_bytes()[4..]);
}
