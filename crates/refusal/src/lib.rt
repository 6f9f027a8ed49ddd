// Which row of the papers' table refuses a call on a study.
#![tactic(auto)]

pub mod start; // start.rt: Start
mod arrivals; // arrivals.rt: a step's arrivals
pub mod segment; // segment.rt: a segment by its number
pub mod calls; // calls.rt: every other call

ghost use Rattle.std.specs.Prelude.{◌≡◌};
ghost use Rattle.laws.specs.First.{row};
ghost use Rattle.laws.specs.Refusal.{number, refused};

use laws::Refusal;

// A row of the table: it refuses where its test holds.
#[tactic(auto, unfolding(laws::specs::First::row))]
fn refuse_if(test: bool, why: Refusal) -> Result<(), Refusal>
    ensures { refused result ≡ row test (number why) 0 }
{
    if test {
        return Err(why);
    }
    Ok(())
}
