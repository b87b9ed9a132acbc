// The dense table of cables between nodes, 128 x 128, the max-back order found on it (document 01, "Order, forests, thinning"), and the floor
// under all divisions that orders give. `fill` makes the table of a list; `run` writes an order of the live nodes with its back counts, a whole
// row of the table at a step, ties to the smallest number; `floor` answers a number that no division is below. These are shared by the calls
// for users, which make every check first: so they, and no other functions of the repository between crates, have a `requires`.
#![tactic(auto)]

ghost use Rattle.std.specs.Prelude.{◌≡◌, Bool, ℕ, ◌+◌, ◌≤◌, ◌<◌, length, get_or, eqb, position};
ghost use Rattle.std.specs.List.{list_any};
ghost use Rattle.meaning.specs.Links.{LinkList, given, list_of};
ghost use Rattle.meaning.specs.Order.{all};
ghost use Rattle.lists.specs.Given.{list_by};
ghost use Rattle.table.specs.Table.{Holds, Rows, Ready, Ran, Joined, Added, NoneBefore, Placeable, Placed};

mod rest;

use lists::{Checked, Links, NODES};
pub use rest::{floor, number};

// The places of the table.
pub const CELLS: usize = NODES * NODES;

// The mark of a free node in its score: above every number of cables. It stays in the score, since the clause `ready` of `run` says so of what
// its callers hand over.
pub const OPEN: u32 = 1073741824;

// ---- the table of a list

// Adds the c cables of a row from x to y: the table holds them both ways. That both are below 128 is a clause, here and wherever two ends come: a node
// is an index, checked where it is used.
fn join(x: usize, y: usize, c: u32, m: &mut [u32; CELLS])
    requires inside { (x < NODES) × (y < NODES) }
    requires light { (i : ℕ) → i < CELLS → get_or m.old i 0 + c + c < 4294967296 }
    ensures { Joined x y c m.old m.new }
{
    m[x * NODES + y] += c;
    m[y * NODES + x] += c;
}

// The table of the rows, in a table of zeros.
pub fn fill(links: &Links<'_>, m: &mut [u32; CELLS])
    requires rows { Rows links.now.a.now links.now.b.now links.now.w.now }
    requires zeros { (i : ℕ) → i < CELLS → get_or m.old i 0 ≡ 0 }
    ensures { (n : ℕ) → Holds (list_of (given n links.now.a.now links.now.b.now links.now.w.now)) m.new }
{
    let Links { a, b, w, .. } = *links;
    for r in 0..a.len() {
        join(usize::from(a[r]), usize::from(b[r]), u32::from(w[r]), m);
    }
}

// ---- the order on a table

// n and the count stand beside the arrays here and below: a part of one, lent as a slice, would need its length in a clause again.

// Adds a row of the table to the scores of the first n nodes; their highest. One plain pass, which the compiler turns into vectors.
fn add_row(score: &mut [u32; NODES], row: &[u32], n: usize) -> u32
    requires room { (n ≤ NODES) × (n ≤ length row.now) }
    requires light { (v : ℕ) → v < n → get_or score.old v 0 + get_or row.now v 0 < 4294967296 }
    ensures { Added n row.now score.old score.new result }
{
    let mut top: u32 = 0;
    for v in 0..n {
        let s = score[v] + row[v];
        score[v] = s;
        top = top.max(s);
    }
    top
}

// Whether one of the scores is `top`. No branch, as `any` would have, so that the compiler turns it into vectors.
fn any_of(scores: &[u32], top: u32) -> bool
    ensures { result ≡ list_any (λ s. eqb s top) scores.now }
{
    let mut any = false;
    for &s in scores {
        any |= s == top;
    }
    any
}

// The first of the scores that is `top`.
fn first_in(scores: &[u32], top: u32) -> Option<usize>
    ensures { result ≡ position (λ s. eqb s top) scores.now }
{
    scores.iter().position(|&s| s == top)
}

// The first node that has the score `top`, which one of them has. Blocks of eight are passed first, up to the one with it; a `for` over the
// blocks would test for their end at each, and cost a fiftieth of a whole call.
fn first_of(score: &[u32; NODES], top: u32) -> usize
    requires some { (v : ℕ) × (v < NODES) × (get_or score.now v 0 ≡ top) }
    ensures found { get_or score.now result 0 ≡ top }
    ensures first { NoneBefore score.now top result }
{
    let mut v: usize = 0;
    while !any_of(&score[v..v + 8], top) {
        v += 8;
    }
    v + first_in(&score[v..], top).unwrap()
}

// Places the node x: takes its mark off and adds its row to the scores. Answers the next: the first with the highest score.
fn place(n: usize, m: &[u32; CELLS], score: &mut [u32; NODES], x: usize) -> usize
    requires { Placeable n x m.now score.old }
    ensures { Placed n x m.now score.old score.new result }
{
    score[x] -= OPEN;
    let at = x * NODES;
    let top = add_row(score, &m[at..at + NODES], n);
    first_of(score, top)
}

// The first `count` nodes of the order from the start, and their back counts, for a table and scores that are ready for it.
// The scores at exit are left as they fall. Seven parameters: the table and the scores are the callers' own working room, and the order and its
// back counts are lists that callers of the C interface lend, of which a part is written.
pub fn run(
    n: usize,
    count: usize,
    start: usize,
    m: &[u32; CELLS],
    score: &mut [u32; NODES],
    order: &mut [u16],
    back: &mut [u32],
)
    requires ready { (L : LinkList) × (live : ℕ → Bool) × Ready L live n count start m.now score.old }
    requires room { (count ≤ length order.old) × (count ≤ length back.old) }
    ensures { (L : LinkList) (live : ℕ → Bool) → Ready L live n count start m.now score.old
        → Ran L live count start order.old order.new back.old back.new }
{
    let mut x = start;
    for p in 0..count {
        order[p] = x as u16;
        back[p] = score[x] - OPEN;
        x = place(n, m, score, x);
    }
}

// The order of a whole list from node 0, and its back counts, on a table of its own.
pub fn order_of(list: &Checked<'_>, order: &mut [u16], back: &mut [u32])
    requires room { (list.now.links.n ≤ length order.old) × (list.now.links.n ≤ length back.old) }
    ensures { Ran (list_by list.now.links) all list.now.links.n 0 order.old order.new back.old back.new }
{
    let n = list.nodes();
    let mut m = [0; CELLS];
    fill(&list.links, &mut m);
    let mut score = [OPEN; NODES];
    run(n, n, 0, &m, &mut score, order, back);
}
