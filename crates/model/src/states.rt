// All segments of a case, in place and in segment order. Each adds what it passes on to what enters its followers; when a segment's turn
// comes, all that enter it have had theirs, and its followers still stand as before the step. By number, since each reads the words of those
// that follow it while its own are written.
ghost use Rattle.std.specs.Prelude.{◌≡◌, length};
ghost use Rattle.metanet.proofs.InWords.{stepped_words};
ghost use Rattle.metanet.proofs.Ready.{Ready, Stepped};

use metanet::SegmentState;
use network_words::kept::Words;
use segment::entering;
use segment::site::Site;

// Stores the figures that a step makes; S and m are those of an ALINEA ramp alone. A state's words are lent as a slice, here as in study: as an
// array of 16 they would come in an Option, with an arm that is never reached.
#[tactic(auto, unfolding(metanet::proofs::InWords::stepped_words))]
fn store(w: &mut [u64], r: SegmentState)
    requires { length w.old ≡ 16 }
    ensures { w.new ≡ stepped_words w.old r }
{
    let ramp = r.ramp;
    let flows = r.flows;
    w[0] = r.count;
    w[1] = r.queue;
    w[5] = ramp.rate;
    w[10] = flows.outflow;
    w[11] = flows.release;
    w[14] = flows.remainder;
    if ramp.kind == 2 {
        w[12] = ramp.sum;
        w[13] = ramp.summed;
    }
}

// One step of the states that start at word at and of the speeds that start at from; gives what leaves.
pub(crate) fn step_states(
    words: &mut [u64],
    speeds: &mut [f64],
    arrivals: &[u32],
    at: usize,
    from: usize,
    n: usize,
    t: u64,
) -> u64
    requires { Ready words.old speeds.old arrivals.now at from n }
    ensures { Stepped words.old speeds.old arrivals.now at from n t words.new speeds.new result }
{
    let net = Words::of(words);
    let head = net.head();
    let mut entries = entering::none_yet();
    let mut left = 0;
    for i in 0..n {
        let a = at + 16 * i;
        let v = speeds[from + i];
        let d = u64::from(arrivals[i]);
        let site = Site::of(words, head, i, a, v);
        let state = site.new_state(t, d, entries[i + 1]);
        let outflow = state.flows.outflow;
        let passed = site.passed_on(outflow);
        let following = site.own.following;
        left += outflow - passed;
        store(&mut words[a..a + 16], state);
        speeds[from + i] = state.speed;
        entering::pass_on(&mut entries, following, passed, outflow, v);
    }
    let none = entries[0];
    left + none.passed
}
