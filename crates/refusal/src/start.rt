// What refuses Start.
ghost use Rattle.std.specs.Prelude.{◌≡◌, ◌<◌};
ghost use Rattle.laws.specs.Refusal.{refused};
ghost use Rattle.format.specs.File.{head_of};
ghost use Rattle.book.specs.Calls.{start};
ghost use Rattle.book.specs.Perform.{lent, refusal_at};
ghost use Rattle.refusal.specs.Ready.{start_number_on, Listed};

use crate::refuse_if;
use case_words::Cases;
use laws::Refusal;

// 14, of segment i, counted from 0: its mv, speed and queue.
// The file and its lists are one struct, Told of crate begin, once nothing refuses them; here that is not known yet.
#[tactic(auto, using(crate::proofs::Starting::segment_on_lem), unfolding(metanet::specs::Start::start_segment_number, laws::specs::First::any_of))]
fn check_segment(
    file: &[u8],
    mvs: &[u32],
    initial: &[u32],
    queues: &[u32],
    i: usize,
) -> Result<(), Refusal>
    requires listed { Listed file.now mvs.now initial.now queues.now }
    requires i_bound { i < (head_of file.now).size }
    ensures { refused result ≡ start_number_on file.now mvs.now initial.now queues.now i }
{
    let s = network::segment_of(file, i as u32);
    let top = network::entry_of(file, s.curve as u32, 0);
    let queue = queues[i];
    refuse_if(
        (s.jam * (s.metres * s.lanes) < u64::from(mvs[i]))
            | arrays::outside(1000, u64::from(initial[i]), top)
            | (1000000 < queue)
            | ((s.origin == 0) & (0 < queue)),
        Refusal::StartFigure,
    )
}

// The file's rows, then 11, 13 and 14.
#[tactic(auto, using(crate::proofs::Starting::start_check))]
pub fn check(
    words: &[u64],
    speeds: &[f64],
    file: &[u8],
    mvs: &[u32],
    initial: &[u32],
    queues: &[u32],
) -> Result<(), Refusal>
    ensures { refused result ≡ refusal_at (start file.now mvs.now initial.now queues.now) (lent words.now speeds.now) }
{
    network::check(file)?;
    let n = network::head_of(file).size as usize;
    refuse_if(
        sound::too_short(words, speeds, Cases { n }),
        Refusal::ShortArrays,
    )?;
    refuse_if(
        (mvs.len() != n) | (initial.len() != n) | (queues.len() != n),
        Refusal::ListLength,
    )?;
    // by number: the file is read by it too, and zips of three lists would nest their items
    for i in 0..n {
        check_segment(file, mvs, initial, queues, i)?;
    }
    Ok(())
}
