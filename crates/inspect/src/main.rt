// Program "inspect": reads a network on standard input and says what is wrong with it and where, or, where it is accepted, what it
// holds. The place is that of the crate `places`; here it is only put into words. Heads and segments are types of another crate, and each
// is printed in one place: a Display of theirs would be no plainer.
#![tactic(auto)]

mod field; // field.rt: a field that breaks a rule, and what is said of it
mod head; // head.rt: the fields of the head and their ranges
mod record; // record.rt: the fields of a record and their ranges
mod followers; // followers.rt: what follows a segment
mod refused; // refused.rt: what refuses a file, and where
mod accepted; // accepted.rt: what an accepted file holds

// So many bytes are read, into fixed memory, which cannot run out: no accepted file has as many, and those after them would change neither
// refusal nor place.
const MOST_READ: usize = 65536;

// A read that fails is the end of the file. After a write that fails nothing more is written; the status is 0 all the same.
fn main(rt: HostRuntime) {
    let mut bytes = [0; MOST_READ];
    let length = io::read_full(0, &mut bytes);
    let file = &bytes[..length];
    let _ = match places::place_of(file) {
        None => accepted::summary(&rt, file),
        Some(place) => refused::tell(&rt, file, place),
    };
}
