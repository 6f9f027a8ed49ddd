// A file whose head is accepted, and that is as long as its head says.
ghost use Rattle.std.specs.Prelude.{◌≡◌, ◌<◌, ◌≤◌, ℕ, length};
ghost use Rattle.laws.specs.Refusal.{refused};
ghost use Rattle.laws.specs.Lists.{part};
ghost use Rattle.format.specs.File.{head_of, curve_start, entry_at, record_size, record_start, record_padding, segment_at, segment_on, records_number, origins_number};
ghost use Rattle.format.proofs.Accepted.{Sized, FollowingWithin};
ghost use Rattle.format.proofs.File.{on_chain};
ghost use Rattle.format.proofs.Rows.{on_chain_following};

use crate::origins::{self, Segments};
use crate::segments::{self, Numbers};
use crate::{curves, records};
use arrays::number;
use format::{Following, Head, Segment};
use laws::Refusal;

#[derive(Drop)]
pub(crate) struct File<'a> {
    pub(crate) bytes: &'a [u8],
    pub(crate) head: Head,
    ghost read: { head ≡ head_of bytes.now },
    ghost sized: { Sized bytes.now head },
}

impl File<'_> {
    // Rows 7, 27 and 8, of all records.
    #[tactic(auto, unfolding(format::specs::File::records_number, format::specs::File::record_number, crate::specs::Segments::segment_row))]
    pub(crate) fn check_records(&self) -> Result<(), Refusal>
        ensures { refused result ≡ records_number self.now.bytes.now }
    {
        segments::check_segments(self)
    }

    // The bytes of record i.
    #[tactic(auto, using(laws::proofs::Lists::span, format::proofs::File::record_ends, format::proofs::File::segment_part_lem))]
    pub(crate) fn record_of(&self, i: u32) -> &[u8]
        requires { i < self.now.head.size }
        ensures long { record_size self.now.head ≤ length result.now }
        ensures bytes { result.now ≡ part (record_start self.now.head i) (record_size self.now.head) self.now.bytes.now }
        ensures segment { segment_at result.now self.now.head i 0 ≡ segment_on self.now.bytes.now i }
    {
        let w = crate::record_size(self.head) as usize;
        let at = (crate::curve_start(self.head.curves as u32) as usize) + w * (i as usize);
        &self.bytes[at..at + w]
    }
}

impl Numbers for File<'_> {
    ghost head = { λ f. head_of f.bytes.now };

    ghost segment = { λ f. segment_on f.bytes.now };

    ghost first_entry = { λ f k. entry_at f.bytes.now (curve_start k) 0 };

    ghost also_bad = { λ f i. record_padding f.bytes.now (record_start (head_of f.bytes.now) i) };

    fn head(&self) -> Head {
        self.head
    }

    fn segment(&self, i: u32) -> Segment {
        records::read(self.record_of(i), self.head, i)
    }

    fn first_entry(&self, k: u64) -> u64 {
        curves::entry(self.bytes, crate::curve_start(k as u32) as usize, 0)
    }

    #[tactic(auto, using(format::proofs::File::record_low, format::proofs::File::padding_part))]
    fn also_bad(&self, i: u32) -> bool {
        records::record_padding(self.record_of(i))
    }

    ghost within = { λ f. (rw f.read at f.sized).within };

    ghost chained = { λ f i _. on_chain_following (head_of f.bytes.now) i (segment_on f.bytes.now i) (on_chain _ f.bytes.now i _) };
}

// A file of which rows 7, 27 and 8 refuse no record.
#[derive(Drop)]
pub(crate) struct Judged<'a> {
    pub(crate) file: File<'a>,
    ghost passed: { records_number file.bytes.now ≡ 0 },
    ghost onward: { (k : ℕ) → k < file.head.size → FollowingWithin file.head.size k (segment_on file.bytes.now k).following },
}

impl Judged<'_> {
    // Row 28. In version 1, the chain, each segment has the one before it, and the first an origin.
    #[tactic(auto, using(crate::proofs::NoneBefore::chain_passes), unfolding(format::specs::File::origins_number))]
    pub(crate) fn check_origins(&self) -> Result<(), Refusal>
        ensures { refused result ≡ origins_number self.now.file.bytes.now }
    {
        let h = self.file.head;
        origins::check_origins(self, h.size as u32, h.version)
    }
}

impl Segments for Judged<'_> {
    ghost size = { λ j. j.file.head.size };

    ghost segment = { λ j. segment_on j.file.bytes.now };

    fn origin(&self, i: u32) -> u64 {
        number::byte_at(self.file.record_of(i), 6)
    }

    fn following(&self, k: u32) -> Following {
        records::following(self.file.record_of(k), self.file.head, k)
    }

    ghost onward = { λ j. j.onward };
}
