// The floor under all divisions of a list: a number that no division is below, found by making the list smaller, in turns, until one node is
// left. `Rest` is the list that is left. A step makes one node of several that no division below a number parts, so it promises that what no
// division of the smaller list is below, up to that number, no division of the list before is below (`Smaller`).
// An order and its back counts, which the caller lends, stay two parameters: as fields of `Rest` they would be lent by `reorder` beside the
// columns, and today's check has no rule for that.
#![tactic(auto)]

ghost use Rattle.std.specs.Prelude.{◌≡◌, ℕ, ◌+◌, ◌-◌, ◌≤◌, ◌<◌, min, length, get_or};
ghost use Rattle.std.specs.List.{fold};
ghost use Rattle.meaning.specs.Sums.{laid};
ghost use Rattle.method.specs.Question.{NoneBelow};
ghost use Rattle.lists.specs.Given.{list_by};
ghost use Rattle.table.specs.Table.{Numbered};
ghost use Rattle.table.specs.Floor.{Named, Squeezed, Stored, Along};
ghost use Rattle.table.specs.Degrees.{Degrees};
ghost use Rattle.table.specs.Hang.{HungOn, Hung};
ghost use Rattle.table.specs.Kept.{Settled, KeptNumbered, RestNamed, Gathered};

use crate::order_of;
use lists::{Checked, Links, NODES, ROWS};

// Every place its own number.
pub fn number(label: &mut [u16])
    requires few { length label.old ≤ 65536 }
    ensures { Numbered label.new }
{
    for (v, own) in label.iter_mut().enumerate() {
        *own = v as u16;
    }
}

// ---- runs of an order

// Here and below an array has the number of its places in use beside it: a part of it, lent as a slice, would need its length in a clause again.

// Names each of the first `count` nodes of an order by its run: a node with a back count below `best` begins one. How many there are.
fn name_runs(
    count: usize,
    best: u32,
    order: &[u16; NODES],
    back: &[u32; NODES],
    name: &mut [u16; NODES],
) -> usize
    requires few { (0 < count) × (count ≤ NODES) }
    requires begun { get_or back.now 0 0 < best }
    requires nodes { (p : ℕ) → p < count → get_or order.now p 0 < NODES }
    requires once { (p q : ℕ) → p < count → q < count → get_or order.now p 0 ≡ get_or order.now q 0 → p ≡ q }
    ensures { Named count best order.now back.now name.old name.new result }
{
    let mut c = 0;
    // by place, since a third list is written: `zip` is no plainer
    for p in 0..count {
        c += usize::from(back[p] < best);
        name[usize::from(order[p])] = (c - 1) as u16;
    }
    c
}

// ---- nodes that hang on a neighbour

// The smallest of `best` and the degrees.
fn lowest(best: u32, deg: &[u32]) -> u32
    ensures { result ≡ fold min best deg.now }
{
    deg.iter().fold(best, |low, d| low.min(*d))
}

// Hangs x on y where it may: neither hangs on anything, nothing hangs on x, and x has at most `twice` cables. `held` marks the nodes that
// something hangs on.
fn hang_on(
    x: u16,
    y: u16,
    twice: u32,
    deg: &[u32; NODES],
    to: &mut [u16; NODES],
    held: &mut [bool; NODES],
)
    requires { (x < NODES) × (y < NODES) }
    ensures { HungOn x y twice deg.now to.old to.new held.old held.new }
{
    let i = usize::from(x);
    let j = usize::from(y);
    if to[i] == x && !held[i] && to[j] == y && deg[i] <= twice {
        to[i] = y;
        held[j] = true;
    }
}

// Numbers the nodes that are their own target, from 0 on. How many there are. Any other node gets the number of the next such one,
// until `name_rest` gives it its target's.
fn number_kept(count: usize, to: &[u16; NODES], name: &mut [u16; NODES]) -> usize
    requires { count ≤ NODES }
    ensures { KeptNumbered count to.now name.old name.new result }
{
    let mut c = 0;
    for v in 0..count {
        name[v] = c as u16;
        c += usize::from(usize::from(to[v]) == v);
    }
    c
}

// Each node gets its target's name, in place: a node that is its own target keeps its name, so none is lost that is still to be read.
fn name_rest(count: usize, to: &[u16; NODES], name: &mut [u16; NODES])
    requires few { count ≤ NODES }
    requires settled { Settled count to.now }
    ensures { RestNamed count to.now name.old name.new }
{
    for v in 0..count {
        name[v] = name[usize::from(to[v])];
    }
}

// One name for all nodes of a target. How many names there are.
fn gather(count: usize, to: &[u16; NODES], name: &mut [u16; NODES]) -> usize
    requires few { count ≤ NODES }
    requires settled { Settled count to.now }
    ensures { Gathered count to.now name.old name.new result }
{
    let c = number_kept(count, to, name);
    name_rest(count, to, name);
    c
}

// ---- the list that is left

// Renames the ends of the first `rows` rows, in place, and leaves out those whose ends become one. How many are left. A row is
// written at or before its own place, so none is lost that is still to be read.
fn squeeze(
    rows: usize,
    name: &[u16; NODES],
    a: &mut [u16; ROWS],
    b: &mut [u16; ROWS],
    w: &mut [u16; ROWS],
) -> usize
    requires few { rows ≤ ROWS }
    requires inside { (r : ℕ) → r < rows → (get_or a.old r 0 < NODES) × (get_or b.old r 0 < NODES) }
    ensures { Squeezed rows name.now a.old b.old w.old a.new b.new w.new result }
{
    let mut to = 0;
    for r in 0..rows {
        let x = name[usize::from(a[r])];
        let y = name[usize::from(b[r])];
        let c = w[r];
        a[to] = x;
        b[to] = y;
        w[to] = c;
        to += usize::from(x != y);
    }
    to
}

// Copies a column to the front of an array. A function, since the check has no rule for a part of a field lent by a struct with a ghost field.
fn lay(from: &[u16], to: &mut [u16; ROWS])
    requires { length from.now ≤ ROWS }
    ensures { to.new ≡ laid from.now to.old }
{
    to[..from.len()].copy_from_slice(from);
}

// A list in the first rows of three arrays. They have a count beside them, since calls allocate nothing; and they are three, as the lists that the
// C interface lends are, so that what orders a caller's list orders this one too.
#[derive(Drop)]
struct Rest {
    nodes: usize,
    rows: usize,
    a: [u16; ROWS],
    b: [u16; ROWS],
    w: [u16; ROWS],
    ghost stored: { Stored nodes rows a b w },
}

impl Rest {
    ghost use Rattle.method.specs.Floor.{Gathers};
    ghost use Rattle.table.specs.Rest.{left_of, Shrinking, Turn, Smaller};

    // A copy of a list's rows, in place of what stood here.
    fn load(&mut self, list: &Checked<'_>)
        ensures { left_of self.new ≡ list_by list.now.links }
    {
        let Links { n, a, b, w } = list.links;
        lay(a, &mut self.a);
        lay(b, &mut self.b);
        lay(w, &mut self.w);
        self.nodes = n as usize;
        self.rows = a.len();
    }

    // One node of all that have one name, of which there are `nodes`. The columns are renamed apart from `self`: between two rows they are no list.
    fn rename(&mut self, name: &[u16; NODES], nodes: usize)
        requires some { (1 ≤ nodes) × (nodes ≤ self.old.nodes) }
        requires below { (v : ℕ) → v < self.old.nodes → get_or name.now v 0 < nodes }
        ensures count { self.new.nodes ≡ nodes }
        ensures squeezed { Squeezed self.old.rows name.now self.old.a self.old.b self.old.w self.new.a self.new.b self.new.w self.new.rows }
        ensures gathers { Gathers (left_of self.old) (left_of self.new) (λ v. get_or name.now v 0) }
    {
        self.rows = squeeze(self.rows, name, &mut self.a, &mut self.b, &mut self.w);
        self.nodes = nodes;
    }

    // One node for each run of the order.
    fn join_runs(&mut self, best: u32, order: &[u16; NODES], back: &[u32; NODES])
        requires { Turn best self.old order.now back.now }
        ensures smaller { Smaller best self.old self.new best }
        ensures fewer { self.new.nodes < self.old.nodes }
    {
        let mut name = [0; NODES];
        let nodes = name_runs(self.nodes, best, order, back, &mut name);
        self.rename(&name, nodes);
    }

    // Each node's cables, in a list of zeros.
    fn degrees(&self, deg: &mut [u32; NODES])
        requires { (v : ℕ) → v < NODES → get_or deg.old v 0 ≡ 0 }
        ensures { Degrees self.now.rows self.now.a self.now.b self.now.w deg.old deg.new }
    {
        for r in 0..self.rows {
            let c = u32::from(self.w[r]);
            deg[usize::from(self.a[r])] += c;
            deg[usize::from(self.b[r])] += c;
        }
    }

    // Row by row, hangs one end on the other where it may: there `to` has the other, and elsewhere the node itself. No node that something
    // hangs on is hung, so a second try the other way round does nothing after the first did.
    fn hang(&self, deg: &[u32; NODES], to: &mut [u16; NODES])
        requires { Numbered to.old }
        ensures { Hung self.now.nodes self.now.rows self.now.a self.now.b self.now.w deg.now to.old to.new }
    {
        let mut held = [false; NODES];
        for r in 0..self.rows {
            let x = self.a[r];
            let y = self.b[r];
            let twice = 2 * u32::from(self.w[r]);
            hang_on(x, y, twice, deg, to, &mut held);
            hang_on(y, x, twice, deg, to, &mut held);
        }
    }

    // Hangs nodes on their neighbours, where at least half of their cables go, so that no division below the fewest cables of a node is lost: the
    // smaller of that and `best`. Only where rows are few, as on rings: in a dense list hardly a node hangs.
    fn fasten(&mut self, best: u32) -> u32
        ensures { Smaller best self.old self.new result }
    {
        if 2 * self.nodes < self.rows {
            return best;
        }
        let mut deg = [0; NODES];
        self.degrees(&mut deg);
        let low = lowest(best, &deg[..self.nodes]);
        let mut to = [0; NODES];
        number(&mut to);
        self.hang(&deg, &mut to);
        let mut name = [0; NODES];
        let nodes = gather(self.nodes, &to, &mut name);
        self.rename(&name, nodes);
        low
    }

    // Both in turn. One node alone hangs on nothing.
    fn contract(&mut self, best: u32, order: &[u16; NODES], back: &[u32; NODES]) -> u32
        requires { Turn best self.old order.now back.now }
        ensures smaller { Smaller best self.old self.new result }
        ensures fewer { self.new.nodes < self.old.nodes }
    {
        self.join_runs(best, order, back);
        if self.nodes == 1 {
            return best;
        }
        self.fasten(best)
    }

    // Orders the list that is left.
    fn reorder(&self, order: &mut [u16; NODES], back: &mut [u32; NODES])
        ensures { Along (left_of self.now) order.new back.new }
    {
        let links = Links {
            n: self.nodes as u32,
            // the first rows, taken here for the reason beside `lists::Columns`
            a: &self.a[..self.rows],
            b: &self.b[..self.rows],
            w: &self.w[..self.rows],
        };
        order_of(&Checked { links }, order, back);
    }

    // A number that no division is below. Each run of the order becomes one node, what hangs is fastened, and the list that is left is ordered
    // afresh, until one node is left. Gives up where a turn takes off less than an eighth of the nodes: with 0,
    // which is a floor of every list, so that no caller has a second case.
    fn sink(&mut self, order: &mut [u16; NODES], back: &mut [u32; NODES]) -> u32
        requires { Shrinking self.old order.old back.old }
        ensures { NoneBelow (left_of self.old) result }
    {
        let mut best = back[self.nodes - 1];
        while best != 0 {
            let nodes = self.nodes;
            let low = self.contract(best, order, back);
            if self.nodes == 1 {
                return low;
            }
            if nodes - self.nodes < nodes / 8 {
                return 0;
            }
            self.reorder(order, back);
            best = low.min(back[self.nodes - 1]);
        }
        0
    }
}

// A number that no division is below, for a list and its order; these two lists are used up. The search is made on a copy of the rows.
pub fn floor(list: &Checked<'_>, order: &mut [u16; NODES], back: &mut [u32; NODES]) -> u32
    requires many { 2 ≤ list.now.links.n }
    requires along { Along (list_by list.now.links) order.old back.old }
    ensures { NoneBelow (list_by list.now.links) result }
{
    // one node with no rows at first: `load` copies the list's rows to where they stay. Arrays filled before would be copied again, into the struct
    let mut rest = Rest {
        nodes: 1,
        rows: 0,
        a: [0; ROWS],
        b: [0; ROWS],
        w: [0; ROWS],
    };
    rest.load(list);
    rest.sink(order, back)
}
