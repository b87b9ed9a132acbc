// Compares the calls with trying every division, on random small lists (document 01, "What every call owes"): the least value, the
// value of the side that came with it, "fewer than k?" for every k up to the value and one more, and what thinning for k leaves
// across every division. Proved safe and ending; what it prints is held to the file `stdout`.
#![tactic(auto)]

ghost use Rattle.std.specs.Prelude.{◌≤◌};

use answers::{Refusal, Split};
use lists::{Columns, Links};
use std::io;

// How many lists are drawn.
const LISTS: u32 = 2000;

// The most rows of a list that is drawn.
const ROWS: usize = 12;

// ---- random lists

// Random numbers: each is made of the one before.
#[derive(Drop)]
struct Random(u32);

impl Random {
    fn draw(&mut self) -> u32 {
        self.0 = self.0.wrapping_mul(1103515245).wrapping_add(12345);
        self.0
    }
}

// A list of up to 12 rows on 2 to 8 nodes: three arrays and a count, as the calls allocate nothing either.
#[derive(Drop)]
struct Site {
    n: u32,
    rows: usize,
    a: [u16; ROWS],
    b: [u16; ROWS],
    w: [u16; ROWS],
    ghost within: { rows ≤ 12 },
}

impl Site {
    // A site drawn by random numbers: sixteen tries at a row.
    fn drawn(random: &mut Random) -> Site {
        let mut site = Site {
            n: random.draw() / 65536 % 7 + 2,
            rows: 0,
            a: [0; ROWS],
            b: [0; ROWS],
            w: [0; ROWS],
        };
        for _ in 0..16 {
            site.add_row(random.draw());
        }
        site
    }

    // One more row, drawn by a random number, where the row is good and has a place.
    fn add_row(&mut self, number: u32) {
        let at = self.rows;
        let x = number / 65536 % 8;
        let y = number / 524288 % 8;
        if at == ROWS || x == y || self.n <= x || self.n <= y {
            return;
        }
        self.a[at] = x as u16;
        self.b[at] = y as u16;
        self.w[at] = (number / 4194304 % 3 + 1) as u16;
        self.rows = at + 1;
    }

    fn links(&self) -> Links<'_> {
        // the first rows, taken here for the reason beside `lists::Columns`
        Links {
            n: self.n,
            a: &self.a[..self.rows],
            b: &self.b[..self.rows],
            w: &self.w[..self.rows],
        }
    }
}

// ---- every division

// Whether node v is in the set of bits; only nodes below 32 can be.
fn inside(set: u32, v: u16) -> bool {
    v < 32 && set >> v & 1 == 1
}

// The cables of a row that are across: its weight, where one end is inside.
fn across(set: u32, a: u16, b: u16, w: u16) -> u64
    ensures { result ≤ 65535 }
{
    if inside(set, a) == inside(set, b) {
        0
    } else {
        u64::from(w)
    }
}

// The value of a division: the cables across, of up to 4,096 rows.
fn value_of(set: u32, links: &Links<'_>) -> u64
    ensures { result ≤ 268431360 }
{
    let Links { a, b, w, .. } = *links;
    let rows = a.len().min(b.len()).min(w.len()).min(4096);
    let mut sum: u64 = 0;
    for r in 0..rows {
        sum += across(set, a[r], b[r], w[r]);
    }
    sum
}

// The number of subsets of the nodes 1 to n - 1, for 2 to 8 nodes; else 1, the empty one.
fn subsets(n: u32) -> u32
    ensures { result ≤ 128 }
{
    match n {
        2..=8 => 1 << (n - 1),
        _ => 1,
    }
}

// The least value over every division of 2 to 8 nodes. Node 0 stays outside, so that each is tried once.
fn least_by_trial(links: &Links<'_>) -> u64 {
    (1..subsets(links.n))
        .map(|half| value_of(half * 2, links))
        .min()
        .unwrap_or(u64::MAX)
}

// ---- the comparisons

// The least split has the least value of all divisions, and its side has that value.
fn least_agrees(links: &Links<'_>) -> bool {
    let best = least_by_trial(links);
    let Ok(Split { value, side }) = least::least(links) else {
        return false;
    };
    let across = value_of((side.low & 0xffff_ffff) as u32, links);
    side.high == 0
        && side.size == side.low.count_ones()
        && u64::from(value) == best
        && across == best
}

// What asking for a split below k told: a split as it should be, none as it should be, or neither.
#[derive(Clone, Copy, PartialEq, Eq)]
enum Heard {
    Yes,
    Nothing,
    Wrong,
}

// A split is given exactly where some division is below k.
fn asked(links: &Links<'_>, k: u32) -> Heard {
    let best = least_by_trial(links);
    let below = best < u64::from(k);
    match least::fewer(links, k) {
        Ok(split) if below && u64::from(split.value) == best => Heard::Yes,
        Err(Refusal::NoneBelow) if !below => Heard::Nothing,
        _ => Heard::Wrong,
    }
}

// One division has across it no more than before, and at least the smaller of k and that.
fn kept_across(k: u32, before: u64, after: u64) -> bool {
    after <= before && before.min(u64::from(k)) <= after
}

// So has every division. Rows of weight 0 count for nothing, so the short list may be followed by zeros.
fn all_kept(k: u32, links: &Links<'_>, short: &Links<'_>) -> bool {
    (1..subsets(links.n)).map(|half| half * 2).all(|set| kept_across(
        k,
        value_of(set, links),
        value_of(set, short),
    ))
}

fn thinning_agrees(links: &Links<'_>, k: u32) -> bool {
    let mut a = [0u16; ROWS];
    let mut b = [0u16; ROWS];
    let mut w = [0u16; ROWS];
    let mut out = Columns {
        a: &mut a,
        b: &mut b,
        w: &mut w,
    };
    if thin::short(links, k, &mut out).is_err() {
        return false;
    }
    let short = Links {
        n: links.n,
        a: &a,
        b: &b,
        w: &w,
    };
    all_kept(k, links, &short)
}

// ---- the run

// What was counted so far.
#[derive(Default, Drop)]
struct Tally {
    yes: u32,
    nothing: u32,
    wrong: u32,
}

impl Tally {
    fn hear(&mut self, heard: Heard) {
        let count = match heard {
            Heard::Yes => &mut self.yes,
            Heard::Nothing => &mut self.nothing,
            Heard::Wrong => &mut self.wrong,
        };
        *count = count.saturating_add(1);
    }

    fn check(&mut self, agrees: bool) {
        if !agrees {
            self.hear(Heard::Wrong);
        }
    }

    // A list with every k from 1 to 8.
    fn try_list(&mut self, links: &Links<'_>) {
        self.check(least_agrees(links));
        for k in 1..=8 {
            self.hear(asked(links, k));
            self.check(thinning_agrees(links, k));
        }
    }
}

// Every list that is drawn.
fn tried() -> Tally {
    let mut tally = Tally::default();
    let mut random = Random(1);
    for _ in 0..LISTS {
        tally.try_list(&Site::drawn(&mut random).links());
    }
    tally
}

fn main(rt: HostRuntime) -> io::Result<()> {
    let tally = tried();
    println!(rt; "random lists of 2 to 8 nodes: {LISTS}")?;
    println!(rt; "asked for k from 1 to 8, a split given: {}", tally.yes)?;
    println!(rt; "asked for k from 1 to 8, none: {}", tally.nothing)?;
    println!(rt;
        "answers that trying every division contradicts: {}",
        tally.wrong
    )
}
