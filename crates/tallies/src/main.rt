// Program "tallies": reads a network of one segment on standard input, starts a study on it with 20,000 mv, 90,000 m/h and a queue of
// 5,000, steps with arrivals 4,000, then 0, and prints steps, segments, queues, arrivals, exits and time at each. Where a call is
// refused it prints the number alone.
#![tactic(auto)]

ghost use Rattle.std.specs.Prelude.{◌≡◌, [], ◌∷◌};
ghost use Rattle.metanet.specs.Line.{stepped};
ghost use Rattle.book.specs.Calls.{item};
ghost use Rattle.book.specs.Perform.{perform, lent, after};
ghost use Rattle.tallies.specs.Run.{steps, ran};

use book::CaseFigures;
use laws::Refusal;

// So many bytes are read, into fixed memory, which cannot run out: no accepted file has as many, and those after them would not change what
// refuses it.
const MOST_READ: usize = 65536;

// The live case's figures, or what refuses a call.
type Tally = Result<CaseFigures, Refusal>;

// One step with d mv arriving at the segment.
fn step(words: &mut [u64], speeds: &mut [f64], d: u32) -> Tally
    ensures { lent words.new speeds.new ≡ (perform (item (stepped (d ∷ []))) (lent words.old speeds.old)).state }
{
    study::step(words, speeds, &[d])?;
    reports::report(words, speeds, 0)
}

// A tally before the steps and after each.
#[tactic(auto, unfolding(book::specs::Perform::after))]
fn list(words: &mut [u64], speeds: &mut [f64]) -> [Tally; 3]
    ensures { lent words.new speeds.new ≡ after perform steps (lent words.old speeds.old) }
{
    [
        reports::report(words, speeds, 0),
        step(words, speeds, 4000),
        step(words, speeds, 0),
    ]
}

fn run(file: &[u8], words: &mut [u64], speeds: &mut [f64]) -> Result<[Tally; 3], Refusal>
    ensures { lent words.new speeds.new ≡ ran file.now (lent words.old speeds.old) }
{
    begin::start(words, speeds, file, &[20000], &[90000], &[5000])?;
    Ok(list(words, speeds))
}

// A line of the listing. The figures are a type of another crate and are printed here alone, so that a Display would be no plainer.
fn print_tally(rt: &impl Print, tally: Tally) -> std::io::Result<()> {
    match tally {
        Err(why) => println!(rt; "{why}"),
        Ok(f) => println!(rt;
            "{} {} {} {} {} {}",
            f.steps, f.segments, f.queues, f.arrivals, f.exits, f.time
        ),
    }
}

// The arrays are long enough for 40 segments, so that a network of several is refused by its lists (13). A read that fails is the end of the
// file, and a write that fails is passed over.
fn main(rt: HostRuntime) {
    let mut bytes = [0; MOST_READ];
    let length = io::read_full(0, &mut bytes);
    // the arrays that a caller in C would lend
    let mut words = [0; 7112];
    let mut speeds = [0.0; 280];
    match run(&bytes[..length], &mut words, &mut speeds) {
        Err(why) => {
            let _ = println!(rt; "{why}");
        }
        Ok(tallies) => {
            let _ = println!(rt; "step segments queues arrivals exits time");
            for tally in tallies {
                let _ = print_tally(&rt, tally);
            }
        }
    }
}
