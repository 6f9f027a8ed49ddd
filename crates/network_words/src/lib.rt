// A network kept in words, a word a number: what they hold, whether the rows refuse it, and how a file's network gets there.
// Places are those of docs/ARRANGEMENT.md; words that are free are 0.
#![tactic(auto)]

pub mod kept; // kept.rt: a network's words that are all there, and a network that is judged
mod judge; // judge.rt: the rows of a kept network
mod keeper; // keeper.rt: the parts of a file's network, written into words

ghost use Rattle.std.specs.Prelude.{◌≡◌, ◌≤◌, ◌++◌, length, drop, slice_index};
ghost use Rattle.laws.specs.Refusal.{refused};
ghost use Rattle.format.specs.File.{file_number, network_of};
ghost use Rattle.format.specs.Words.{head_in, entry_in, segment_in, kept_number, kept_words};

use crate::judge::Network;
use crate::kept::{Judged, Words};
use format::{Following, Head, Segment};
use laws::Refusal;

// The words of a kept network.
pub const NETWORK_WORDS: usize = 2560;

// How many segments the words say; a word past their end reads as 0.
pub fn kept_size(kept: &[u64]) -> usize
    ensures { result ≡ slice_index kept.now 1 }
{
    word_at(kept, 1) as usize
}

// Word i of a list; past the end a word reads as 0.
fn word_at(w: &[u64], i: usize) -> u64
    ensures { result ≡ slice_index w.now i }
{
    w.get(i).copied().unwrap_or(0)
}

// The head of the network kept in words of any content; a word past their end reads as 0.
#[tactic(auto, unfolding(format::specs::Words::head_in))]
pub fn kept_head(kept: &[u64]) -> Head
    ensures { result ≡ head_in kept.now }
{
    Head {
        version: word_at(kept, 7),
        step: word_at(kept, 0),
        size: word_at(kept, 1),
        curves: word_at(kept, 2),
        tau: word_at(kept, 3),
        nu: word_at(kept, 4),
        kappa: word_at(kept, 5),
        delta: word_at(kept, 6),
    }
}

// Segment i, counted from 0, of the network kept in words of any content.
#[tactic(auto, unfolding(format::specs::Words::segment_in))]
pub fn kept_segment(kept: &[u64], i: u32) -> Segment
    ensures { result ≡ segment_in kept.now i }
{
    let at = 1624 + 16 * (i as usize);
    let following = Following {
        first: word_at(kept, at + 8),
        second: word_at(kept, at + 9),
        share: word_at(kept, at + 10),
    };
    Segment {
        metres: word_at(kept, at),
        lanes: word_at(kept, at + 1),
        curve: word_at(kept, at + 2),
        critical: word_at(kept, at + 3),
        jam: word_at(kept, at + 4),
        origin: word_at(kept, at + 5),
        exit: word_at(kept, at + 6),
        most: word_at(kept, at + 7),
        following,
    }
}

// Entry j of curve k of the network kept in words of any content.
pub fn kept_entry(kept: &[u64], k: u32, j: u32) -> u64
    ensures { result ≡ entry_in kept.now k j }
{
    word_at(kept, 16 + 201 * (k as usize) + (j as usize))
}

// Why the network kept in these words is refused: row 11 where they are too few, then the rows of a network.
#[tactic(auto, using(crate::proofs::Rows::kept_rows), unfolding(format::specs::Words::kept_number, laws::specs::First::row))]
pub fn check(kept: &[u64]) -> Result<(), Refusal>
    ensures { refused result ≡ kept_number kept.now }
{
    if kept.len() < NETWORK_WORDS {
        return Err(Refusal::ShortArrays);
    }
    let net = Words { words: kept };
    let head = net.head();
    judge::check_head(head)?;
    judge::check_curves(&net, head.curves as usize)?;
    Network { net, head }.check_segments()?;
    Judged { net }.check_origins()
}

// Keeps the network of an accepted file in the first 2,560 words; later words stay.
#[tactic(auto, using(crate::proofs::KeepCall::keep_lengths))]
pub fn keep(file: &[u8], words: &mut [u64])
    requires { (file_number file.now ≡ 0) × (2560 ≤ length words.old) }
    ensures { words.new ≡ kept_words (network_of file.now) ++ drop 2560 words.old }
{
    let h = network::head_of(file);
    words[..NETWORK_WORDS].fill(0);
    let kept = &mut words[..NETWORK_WORDS];
    keeper::put_head(kept, h);
    keeper::put_entries(file, &mut kept[16..16 + 201 * (h.curves as usize)]);
    keeper::put_segments(file, h.size as u32, kept);
}
