// The least split and "fewer than k?" ("The least split" of document 01): the rounds of document 000 on one dense table of cables
// that is merged in place. Each round orders the groups, notes the value of the last one, and merges the last two. Both calls
// state their whole answer for every input. `Groups` has the table, and in `label` the number of each node's group; `Pair` merges two.
// A side's words are made only when a smaller value is noted.
#![tactic(auto)]

ghost use Rattle.std.specs.Prelude.{◌≡◌, ℕ, suc, ◌≤◌, ◌<◌, min, max, length, eqb};
ghost use Rattle.meaning.specs.Links.{LinkList};
ghost use Rattle.meaning.specs.Numbers.{when, answered, one_node};
ghost use Rattle.meaning.specs.Split.{Split as PaperSplit, better, least_of};
ghost use Rattle.meaning.specs.Calls.{split_fields, least0, least_answer, fewer_answer};
ghost use Rattle.answers.specs.Paper.{parted_paper};
ghost use Rattle.lists.specs.Given.{given_by};
ghost use Rattle.method.specs.Question.{NoneBelow};
ghost use Rattle.sides.specs.Bits.{labelled};
ghost use Rattle.table.specs.Table.{mark, cell_at};
ghost use Rattle.least.specs.Rounds.{Opened, Relabelled, Light, RowFolded, ColumnFolded, Folded, Ended, NotesYet, Notes, After};

use answers::{Refusal, Split};
use lists::{Checked, Links, NODES};
use table::CELLS;

// ---- two groups that become one

// The numbers of two groups: `gone` becomes part of `keep`, the smaller. That no sum of two cells overflows (`Light`) is a clause: it is of the table,
// and not of the pair.
#[derive(Clone, Copy)]
struct Pair {
    keep: u16,
    gone: u16,
    ghost apart: { keep < gone },
    ghost inside: { gone < 128 },
}

impl Pair {
    // The nodes of the group `gone` go over to the group `keep`.
    fn relabel(self, label: &mut [u16; NODES])
        ensures { Relabelled 128 self.keep self.gone label.old label.new }
    {
        for t in label.iter_mut() {
            *t = if *t == self.gone { self.keep } else { *t };
        }
    }

    // Adds row `gone` of the table to row `keep` and clears it.
    fn fold_row(self, m: &mut [u32; CELLS])
        requires { Light m.old }
        ensures { RowFolded self.keep self.gone 128 m.old m.new }
    {
        let keep = usize::from(self.keep);
        let gone = usize::from(self.gone);
        for c in 0..NODES {
            m[keep * NODES + c] += m[gone * NODES + c];
            m[gone * NODES + c] = 0;
        }
    }

    // Copies row `keep` into column `keep` and clears column `gone`.
    fn fold_column(self, m: &mut [u32; CELLS])
        requires { cell_at m.old self.keep self.gone ≡ 0 }
        ensures { ColumnFolded self.keep self.gone 128 m.old m.new }
    {
        let keep = usize::from(self.keep);
        let gone = usize::from(self.gone);
        for r in 0..NODES {
            m[r * NODES + keep] = m[keep * NODES + r];
            m[r * NODES + gone] = 0;
        }
    }

    // The two become one in the table: cables inside it count for nothing.
    fn fold(self, m: &mut [u32; CELLS])
        requires { Light m.old }
        ensures { Folded self.keep self.gone m.old m.new }
    {
        self.fold_row(m);
        let row = usize::from(self.keep) * NODES;
        m[row + usize::from(self.keep)] = 0;
        m[row + usize::from(self.gone)] = 0;
        self.fold_column(m);
    }
}

// ---- noting

// The last group of a round's order, the one before it, and the value of the last.
#[derive(Clone, Copy)]
struct Last {
    last: u16,
    before: u16,
    value: u32,
}

// The division of the group t replaces the noted one, if any, only when its value is smaller.
fn note(noted: Option<Split>, label: &[u16], t: u16, value: u32) -> Split
    requires { length label.now ≤ 128 }
    ensures { (p q : PaperSplit) → NotesYet (length label.now) p noted → value ≡ q.value → value < mark
        → ((v : ℕ) → v < length label.now → labelled label.now t v ≡ q.side v)
        → Notes (length label.now) (better p q) result }
{
    match noted {
        Some(split) if split.value <= value => split,
        _ => Split {
            value,
            side: sides::side(label, t),
        },
    }
}

// ---- the groups

// The groups of the nodes, `count` of them: the table of the cables between them, and the number of each node's group. Arrays of the frame, since
// the calls allocate nothing. Which list's groups they are is a clause (`Grouping`), since a type knows no list.
#[derive(Drop)]
struct Groups {
    nodes: usize,
    count: usize,
    m: [u32; CELLS],
    label: [u16; NODES],
    ghost few: { (count ≤ nodes) × (nodes ≤ 128) },
}

impl Groups {
    ghost use Rattle.least.specs.Grouping.{Grouping};

    // The scores at the start of a round: a group has its mark at its number.
    fn open(&self, score: &mut [u32; NODES])
        ensures { Opened self.now.nodes self.now.label score.old score.new }
    {
        for v in 0..self.nodes {
            score[v] = if usize::from(self.label[v]) == v {
                table::OPEN
            } else {
                0
            };
        }
    }

    // Orders the groups, the start's first.
    fn ends(&self, start: usize) -> Last
        requires grouped { (L : LinkList) × (g : ℕ → ℕ) × Grouping L g self.now }
        requires two { 2 ≤ self.now.count }
        requires inside { start < self.now.nodes }
        ensures { (L : LinkList) (g : ℕ → ℕ) (j : ℕ) → self.now.count ≡ suc (suc j)
            → Grouping L g self.now → Ended L start g j result }
    {
        let mut score = [0u32; NODES];
        let mut order = [0u16; NODES];
        let mut back = [0u32; NODES];
        self.open(&mut score);
        let s = usize::from(self.label[start]);
        table::run(
            self.nodes, self.count, s, &self.m, &mut score, &mut order, &mut back,
        );
        Last {
            last: order[self.count - 1],
            before: order[self.count - 2],
            value: back[self.count - 1],
        }
    }

    // The groups p and q become one, which carries the smaller number. The one place where a `Pair` is made.
    fn merge(&mut self, p: u16, q: u16)
        requires apart { (p < 128) × (q < 128) × (p ≡ q → ⊥) }
        requires some { 1 ≤ self.old.count }
        requires light { Light self.old.m }
        ensures nodes { self.new.nodes ≡ self.old.nodes }
        ensures count { suc self.new.count ≡ self.old.count }
        ensures folded { Folded (min p q) (max p q) self.old.m self.new.m }
        ensures relabelled { Relabelled 128 (min p q) (max p q) self.old.label self.new.label }
    {
        let pair = Pair {
            keep: p.min(q),
            gone: p.max(q),
        };
        pair.fold(&mut self.m);
        pair.relabel(&mut self.label);
        self.count -= 1;
    }

    // A round: order, note the last group, merge the last two.
    fn round(&mut self, start: usize, noted: Option<Split>) -> Split
        requires grouped { (L : LinkList) × (g : ℕ → ℕ) × Grouping L g self.old }
        requires two { 2 ≤ self.old.count }
        requires inside { start < self.old.nodes }
        ensures nodes { self.new.nodes ≡ self.old.nodes }
        ensures count { suc self.new.count ≡ self.old.count }
        ensures after { (L : LinkList) (g : ℕ → ℕ) (j : ℕ) (p : PaperSplit) → self.old.count ≡ suc (suc j)
            → Grouping L g self.old → NotesYet self.old.nodes p noted
            → After L start g j self.old.nodes p self.new.m self.new.label result }
    {
        let end = self.ends(start);
        let next = note(noted, &self.label[..self.nodes], end.last, end.value);
        self.merge(end.before, end.last);
        next
    }

    // Every round until one group is left, or a value that no division is below, which none can replace.
    fn rounds(&mut self, start: usize, low: u32) -> Split
        requires grouped { (L : LinkList) × Grouping L (λ v. v) self.old }
        requires all { self.old.count ≡ self.old.nodes }
        requires two { 2 ≤ self.old.nodes }
        requires inside { start < self.old.nodes }
        ensures { (L : LinkList) → Grouping L (λ v. v) self.old → NoneBelow L low → Notes self.old.nodes (least_of L start) result }
    {
        let mut noted = self.round(start, None);
        while low < noted.value && 1 < self.count {
            noted = self.round(start, Some(noted));
        }
        noted
    }
}

// The least split of a list of two or more nodes. Most often it is the first round's, which stands where no division is below it. Not inlined:
// what needs none of its tables does not pay for them.
#[inline(never)]
fn division(list: &Checked<'_>) -> Split
    requires many { 2 ≤ list.now.links.n }
    ensures { Notes list.now.links.n (least0 (given_by list.now.links)) result }
{
    let n = list.nodes();
    // what its checks say: n nodes fit the arrays below
    prove!(n <= NODES);
    let mut label = [0u16; NODES];
    table::number(&mut label);
    let mut order = [0u16; NODES];
    let mut back = [0u32; NODES];
    table::order_of(list, &mut order, &mut back);
    let last = order[n - 1];
    let value = back[n - 1];
    let low = table::floor(list, &mut order, &mut back);
    if value <= low {
        let side = sides::side(&label[..n], last);
        return Split { value, side };
    }
    let mut groups = Groups {
        nodes: n,
        count: n,
        m: [0; CELLS],
        label,
    };
    table::fill(&list.links, &mut groups.m);
    groups.rounds(0, low)
}

// The least split, or 16 with one node.
fn split(list: &Checked<'_>) -> Result<Split, Refusal>
    ensures { parted_paper result ≡ answered (when (eqb list.now.links.n 1) one_node 0)
        (split_fields list.now.links.n (least0 (given_by list.now.links))) }
{
    if list.links.n == 1 {
        return Err(Refusal::OneNode);
    }
    Ok(division(list))
}

// ---- the calls

// The least split: its value, its side's words and its size; 16 with one node.
pub fn least(links: &Links<'_>) -> Result<Split, Refusal>
    ensures { parted_paper result ≡ least_answer (given_by links.now) }
{
    split(&links.check(false)?)
}

// The same split where its value is below k, else 17; before it 15 and 16.
pub fn fewer(links: &Links<'_>, k: u32) -> Result<Split, Refusal>
    ensures { parted_paper result ≡ fewer_answer (given_by links.now) k }
{
    let list = links.check(false)?;
    if k == 0 {
        return Err(Refusal::ZeroK);
    }
    let found = split(&list)?;
    if k <= found.value {
        return Err(Refusal::NoneBelow);
    }
    Ok(found)
}
