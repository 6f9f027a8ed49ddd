// Start: a study begun on a network file. Words and speeds are two parameters: the two arrays that C lends.
#![tactic(auto)]

mod words; // words.rt: the words and speeds that it puts in

ghost use Rattle.book.specs.Perform.{Performs};
ghost use Rattle.book.specs.Calls.{start};
ghost use Rattle.book.specs.Question.{verdict_says};

use crate::words::Told;
use laws::Refusal;

// Begins a study on a network file: for each segment initial mv, speed in whole m/h and queue in mv. All ramps are open, signs dark,
// flows and totals 0, slots empty, the run count 0.
#[tactic(auto, using(crate::proofs::Beginning::start_call))]
pub fn start(
    words: &mut [u64],
    speeds: &mut [f64],
    file: &[u8],
    mvs: &[u32],
    initial: &[u32],
    queues: &[u32],
) -> Result<(), Refusal>
    ensures { Performs (start file.now mvs.now initial.now queues.now) words.old speeds.old (verdict_says result) words.new speeds.new }
{
    refusal::start::check(words, speeds, file, mvs, initial, queues)?;
    let told = Told {
        file,
        mvs,
        initial,
        queues,
    };
    told.put_words(words);
    told.put_speeds(speeds);
    Ok(())
}
