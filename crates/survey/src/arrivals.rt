// The arrivals of a file, read one after the other.
ghost use Rattle.std.specs.Prelude.{◌≡◌, ◌+◌, ◌*◌, ◌≤◌, length};
ghost use Rattle.laws.specs.Lists.{table};
ghost use Rattle.survey_file.specs.File.{arrival_on};

// Puts the file's arrivals, from arrival first on, over all places of out. A day has up to 800,000. By index,
// for of what is written through zip the library promises nothing.
#[tactic(auto, using(crate::proofs::Loops::put_loop))]
pub(crate) fn put(file: &[u8], first: usize, out: &mut [u32])
    requires { 8 + 4 * (first + length out.old) ≤ length file.now }
    ensures { out.new ≡ table (λ i. arrival_on file.now (first + i)) (length out.old) }
{
    let at = 8 + 4 * first;
    let (entries, _) = file[at..].as_chunks::<4>();
    for (i, arrival) in out.iter_mut().enumerate() {
        *arrival = u32::from_be_bytes(entries[i]);
    }
}
