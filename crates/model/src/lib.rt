// One METANET step with ALINEA ramps over the lent words and speeds, which stay two parameters: both are written, and each clause is about
// one of them.
#![tactic(auto)]

mod states; // states.rt: all segments of a case, in place
mod totals; // totals.rt: steps, arrivals, exits, time

ghost use Rattle.std.specs.Prelude.{◌≡◌, ◌+◌, ◌*◌};
ghost use Rattle.laws.specs.Sums.{sum_of};
ghost use Rattle.metanet.proofs.InWords.{step_case_words, step_case_speeds};
ghost use Rattle.metanet.proofs.Ready.{Ready, TotalsOk, vehicles_at};

// One step of the case whose states start at word at and whose speeds start at from; n is the network's number of segments and
// vehicles the mv in segments and queues. The caller has judged the network, the case and the arrivals.
pub fn step(
    words: &mut [u64],
    speeds: &mut [f64],
    arrivals: &[u32],
    at: usize,
    from: usize,
    n: usize,
    vehicles: u64,
)
    requires ready { Ready words.old speeds.old arrivals.now at from n }
    requires totals_ok { TotalsOk words.old (at + 16 * n) }
    requires vehicles_value { vehicles ≡ sum_of (vehicles_at words.old at) n }
    ensures words_after { words.new ≡ step_case_words words.old speeds.old at from n arrivals.now }
    ensures speeds_after { speeds.new ≡ step_case_speeds words.old speeds.old at from n arrivals.now }
{
    let totals = at + 16 * n;
    let t = words[totals];
    // T alone: the whole head is read once, by the states
    let duration = words[0];
    let came = totals::sum_arrivals(arrivals);
    let left = states::step_states(words, speeds, arrivals, at, from, n, t);
    let time = duration * vehicles;
    totals::add_totals(&mut words[totals..totals + 8], came, left, time);
}
