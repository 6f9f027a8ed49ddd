// The parts of a file's network, written into words.
ghost use Rattle.std.specs.Prelude.{◌≡◌, ◌+◌, ◌*◌, ◌≤◌, ◌++◌, length, drop};
ghost use Rattle.laws.specs.Lists.{table, puts};
ghost use Rattle.laws.specs.BigEndian.{u32_at};
ghost use Rattle.format.specs.File.{segment_on};
ghost use Rattle.format.specs.Words.{head_words, segment_words};

use arrays::number;
use format::{Head, Segment};

// Puts the head over the first 16 words; those that are free are 0.
#[tactic(auto, unfolding(format::specs::Words::head_words))]
pub(crate) fn put_head(words: &mut [u64], h: Head)
    requires { 16 ≤ length words.old }
    ensures { words.new ≡ head_words h ++ drop 16 words.old }
{
    let head = [
        h.step, h.size, h.curves, h.tau, h.nu, h.kappa, h.delta, h.version, 0, 0, 0, 0, 0, 0, 0, 0,
    ];
    words[..16].copy_from_slice(&head);
}

#[tactic(auto, unfolding(format::specs::Words::segment_words))]
fn segment_words(s: Segment) -> [u64; 16]
    ensures { result ≡ segment_words s }
{
    let f = s.following;
    [
        s.metres, s.lanes, s.curve, s.critical, s.jam, s.origin, s.exit, s.most, f.first, f.second,
        f.share, 0, 0, 0, 0, 0,
    ]
}

// Puts entries, which stand in the file from byte 16 on, over all of these words.
pub(crate) fn put_entries(file: &[u8], words: &mut [u64])
    requires { 16 + 4 * length words.old ≤ length file.now }
    ensures { words.new ≡ table (λ m. u32_at file.now (16 + 4 * m)) (length words.old) }
{
    for (m, word) in words.iter_mut().enumerate() {
        *word = number::u32_in(file, 16 + 4 * m);
    }
}

// Puts the first n segments at word 1,624. By index: of words that chunks_exact_mut lends nothing is known afterwards. The loops that put part
// after part, here, in network_writer, survey and begin, share the laws of `puts` and no function: it would take a closure for the part and
// say of each part what that gives, to save three lines.
pub(crate) fn put_segments(file: &[u8], n: u32, words: &mut [u64])
    requires { 1624 + 16 * n ≤ length words.old }
    ensures { words.new ≡ puts 16 (λ i. segment_words (segment_on file.now i)) 1624 n words.old }
{
    for i in 0..n {
        let at = 1624 + 16 * (i as usize);
        let s = network::segment_of(file, i);
        words[at..at + 16].copy_from_slice(&segment_words(s));
    }
}
