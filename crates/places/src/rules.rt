// The rules of rows 2, 4 and 7, one by one, in the order of their definitions, and the first that is broken. Crate network has the same
// tests joined, for speed, and says only whether one is broken. Rules and the bytes that they are about are two lists, as their definitions
// are: a rule's number, which C is told and by which its byte is looked up, is its place in both.
ghost use Rattle.std.specs.Prelude.{◌≡◌, get_or};
ghost use Rattle.laws.specs.First.{first_held};
ghost use Rattle.format.specs.Placed.{mark_rules};
ghost use Rattle.format.specs.Place.{head_rules, head_fields, record_rules, record_fields};

use arrays::number;

// The place of the first test that holds, and their number where none does.
pub(crate) fn first_held(tests: &[bool]) -> u64
    ensures { result ≡ first_held tests.now }
{
    tests.iter().position(|t| *t).unwrap_or(tests.len()) as u64
}

// The first byte that is not the mark's, "FWN".
#[tactic(auto, unfolding(laws::specs::Lists::table))]
pub(crate) fn mark_rule(file: &[u8]) -> u64
    ensures { result ≡ first_held (mark_rules file.now) }
{
    let mark = b"FWN";
    let rules = [
        number::byte_at(file, 0) != u64::from(mark[0]),
        number::byte_at(file, 1) != u64::from(mark[1]),
        number::byte_at(file, 2) != u64::from(mark[2]),
    ];
    first_held(&rules)
}

// Whether each rule of the head is broken.
fn head_rules(file: &[u8]) -> [bool; 10]
    ensures { result ≡ head_rules file.now }
{
    let h = network::head_of(file);
    [
        arrays::outside(1, h.step, 60),
        arrays::outside(1, h.size, 40),
        arrays::outside(1, h.curves, 8),
        arrays::outside(1, h.tau, 120),
        200 < h.nu,
        arrays::outside(1, h.kappa, 200),
        1000 < h.delta,
        0 < number::byte_at(file, 11),
        0 < number::byte_at(file, 14),
        0 < number::byte_at(file, 15),
    ]
}

// The first rule of the head that is broken.
pub(crate) fn head_rule(file: &[u8]) -> u64
    ensures { result ≡ first_held (head_rules file.now) }
{
    first_held(&head_rules(file))
}

// The byte of the head that a rule is about.
pub(crate) fn head_field(rule: u64) -> u8
    ensures { result ≡ get_or head_fields rule 0 }
{
    let fields = [5, 6, 7, 8, 9, 10, 12, 11, 14, 15];
    fields.get(rule as usize).copied().unwrap_or(0)
}

// Whether each rule of record i is broken.
fn record_rules(file: &[u8], i: u32) -> [bool; 17]
    ensures { result ≡ record_rules file.now i }
{
    let at = network::record_start(file, i) as usize;
    let h = network::head_of(file);
    let s = network::segment_of(file, i);
    let f = s.following;
    [
        arrays::outside(100, s.metres, 2000),
        arrays::outside(1, s.lanes, 8),
        h.curves <= s.curve,
        s.critical < 1,
        s.jam <= s.critical,
        arrays::outside(2, s.jam, 200),
        1 < s.origin,
        (i == 0) & (s.origin == 0),
        1000 < s.exit,
        (f.first == 0) & (f.second == 0) & (0 < s.exit),
        (s.origin == 0) & (0 < s.most),
        (s.origin == 1) & arrays::outside(1, s.most, 300000),
        0 < number::byte_at(file, at + 7),
        0 < number::byte_at(file, at + 14),
        0 < number::byte_at(file, at + 15),
        1000 < f.share,
        (f.second == 0) & (f.share != 1000),
    ]
}

// The first rule of record i that is broken.
pub(crate) fn record_rule(file: &[u8], i: u32) -> u64
    ensures { result ≡ first_held (record_rules file.now i) }
{
    first_held(&record_rules(file, i))
}

// The byte of a record that a rule is about.
pub(crate) fn record_field(rule: u64) -> u8
    ensures { result ≡ get_or record_fields rule 0 }
{
    let fields = [0, 2, 3, 4, 4, 5, 6, 6, 8, 8, 10, 10, 7, 14, 15, 18, 18];
    fields.get(rule as usize).copied().unwrap_or(0)
}
