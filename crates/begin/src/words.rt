// The study that Start puts into the arrays.
ghost use Rattle.std.specs.Prelude.{◌≡◌, ◌+◌, ◌*◌, ◌<◌, ◌≤◌, length, get_or, drop, ◌++◌};
ghost use Rattle.laws.specs.Lists.{table, put_part, puts};
ghost use Rattle.laws.specs.Real.{real};
ghost use Rattle.format.specs.File.{head_of};
ghost use Rattle.book.specs.Arrangement.{start_marks};
ghost use Rattle.refusal.specs.Ready.{Listed};
ghost use Rattle.begin.specs.Ready.{open_words_on, begin_words};

use case_words::{ARRANGEMENT, ARRANGEMENT_WORD, Cases, RUN_WORD};

// Writes run count 0, empty marks and the arrangement number.
fn put_marks(words: &mut [u64])
    requires { 2576 ≤ length words.old }
    ensures { words.new ≡ put_part 2560 16 start_marks words.old }
{
    words[RUN_WORD..ARRANGEMENT_WORD].fill(0);
    words[ARRANGEMENT_WORD] = ARRANGEMENT;
}

// What Start is told and nothing refuses: a file, and lists as long as its network has segments.
#[derive(Clone, Copy)]
pub(crate) struct Told<'a> {
    pub(crate) file: &'a [u8],
    pub(crate) mvs: &'a [u32],
    pub(crate) initial: &'a [u32],
    pub(crate) queues: &'a [u32],
    ghost listed: { Listed file.now mvs.now initial.now queues.now },
}

impl Told<'_> {
    // Where the cases are to stand.
    #[tactic(auto, using(refusal::proofs::Starting::size_high))]
    fn cases(&self) -> Cases
        ensures { result.n ≡ (head_of self.now.file.now).size }
    {
        Cases {
            n: network::head_of(self.file).size as usize,
        }
    }

    // The state of segment i, counted from 0: dark sign, open ramp with R at Q, flows 0.
    #[tactic(auto, using(refusal::proofs::Starting::size_high), unfolding(crate::specs::Ready::open_words))]
    fn state(&self, i: usize) -> [u64; 16]
        requires { i < (head_of self.now.file.now).size }
        ensures { result ≡ open_words_on self.now.file.now self.now.mvs.now self.now.queues.now i }
    {
        let mv = u64::from(self.mvs[i]);
        let queue = u64::from(self.queues[i]);
        let most = network::segment_of(self.file, i as u32).most;
        [mv, queue, 0, 0, 0, most, 0, 0, 0, 0, 0, 0, 0, 0, 0, 0]
    }

    // Writes the states of the live case. After chunks_exact_mut a proof knows the length of what it went over and no word, so an index
    // counts the states.
    #[tactic(auto, using(crate::proofs::Beginning::state_loop))]
    fn put_states(&self, words: &mut [u64])
        requires { 2576 + 16 * (head_of self.now.file.now).size ≤ length words.old }
        ensures { let s = self.now in words.new ≡ puts 16 (open_words_on s.file.now s.mvs.now s.queues.now) 2576 (head_of s.file.now).size words.old }
    {
        let cases = self.cases();
        for i in 0..cases.n {
            let to = cases.word(0) + 16 * i;
            words[to..to + 16].copy_from_slice(&self.state(i));
        }
    }

    // Writes the network, the run count and the marks, and the words of the live case.
    pub(crate) fn put_words(&self, words: &mut [u64])
        requires { 2584 + 16 * (head_of self.now.file.now).size ≤ length words.old }
        ensures { let s = self.now in words.new ≡ begin_words s.file.now s.mvs.now s.queues.now (head_of s.file.now).size words.old }
    {
        network_words::keep(self.file, words);
        put_marks(words);
        self.put_states(words);
        let cases = self.cases();
        words[cases.totals(0)..cases.word(1)].fill(0);
    }

    // Writes the speeds of the live case.
    #[tactic(auto, using(laws::proofs::Puts::table_loop))]
    pub(crate) fn put_speeds(&self, speeds: &mut [f64])
        requires { (head_of self.now.file.now).size ≤ length speeds.old }
        ensures { let n = (head_of self.now.file.now).size in speeds.new ≡ table (λ i. real (get_or self.now.initial.now i 0)) n ++ drop n speeds.old }
    {
        for (i, v) in self.initial.iter().enumerate() {
            speeds[i] = f64::from(*v);
        }
    }
}
