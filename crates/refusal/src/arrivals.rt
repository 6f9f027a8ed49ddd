// The row that judges the arrivals of a step.
ghost use Rattle.std.specs.Prelude.{◌≡◌, ◌||◌, ◌&&◌, ◌<◌, ◌≤◌, length, ltb, eqb};
ghost use Rattle.laws.specs.First.{first_of, row};
ghost use Rattle.laws.specs.Refusal.{refused};
ghost use Rattle.format.specs.Words.{segment_in};
ghost use Rattle.metanet.proofs.InWords.{arrival_number_in};

use crate::refuse_if;
use laws::Refusal;
use network_words::kept::Words;

// 15, of d arrivals at segment i.
fn check_arrival(net: &Words<'_>, i: usize, d: u32) -> Result<(), Refusal>
    requires { i < 40 }
    ensures { refused result ≡ row (ltb 1000000 d || (eqb (segment_in net.now.words.now i).origin 0 && ltb 0 d)) 15 0 }
{
    let origin = net.origin(i);
    refuse_if((1000000 < d) | ((origin == 0) & (0 < d)), Refusal::Arrival)
}

// 15, of the first segment whose arrivals it refuses.
#[tactic(auto, using(laws::proofs::Refused::row_loop), unfolding(metanet::specs::Sound::arrival_number))]
pub(crate) fn check_arrivals(net: &Words<'_>, arrivals: &[u32]) -> Result<(), Refusal>
    requires { length arrivals.now ≤ 40 }
    ensures { refused result ≡ first_of (arrival_number_in net.now.words.now arrivals.now) (length arrivals.now) }
{
    for (i, d) in arrivals.iter().enumerate() {
        check_arrival(net, i, *d)?;
    }
    Ok(())
}
