// A case's words and speeds, copied to the place of another.
ghost use Rattle.std.specs.Prelude.{◌≡◌, ◌≤◌, length};
ghost use Rattle.book.specs.Arrangement.{words_for, speeds_for};
ghost use Rattle.book.specs.Perform.{copied_words, copied_speeds};

use case_words::Cases;

// Case j over case k.
#[tactic(auto, unfolding(book::specs::Perform::copied_words, book::specs::Perform::copied_speeds))]
pub(crate) fn copy_case(words: &mut [u64], speeds: &mut [f64], cases: Cases, j: usize, k: usize)
    requires { (j ≤ 6) × (k ≤ 6) × (words_for cases.n ≤ length words.old) × (speeds_for cases.n ≤ length speeds.old) }
    ensures words_after { words.new ≡ copied_words cases.n j k words.old }
    ensures speeds_after { speeds.new ≡ copied_speeds cases.n j k speeds.old }
{
    let word = cases.word(j);
    words.copy_within(word..word + cases.length(), cases.word(k));
    let speed = cases.speed(j);
    speeds.copy_within(speed..speed + cases.n, cases.speed(k));
}
