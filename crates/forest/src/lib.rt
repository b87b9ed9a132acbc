// The first forest numbers of a list's rows: document 01, "Order, forests, thinning", after document 003's FOREST.
//
// The table of the list is turned once along the order, so that the cell of x and y holds the cables from y to the nodes before x:
// what has reached y when the scan comes to x. One pass over the rows in row order then numbers each row from the cell of its two
// ends and advances the cell by the row's weight. `forest` promises, for every input, its answer and every place of the lent list
// (`meaning`'s `firsts_of`); `firsts` promises the places for a list that has passed its checks.
#![tactic(auto)]

ghost use Rattle.std.specs.Prelude.{◌≡◌, ℕ, ◌+◌, ◌^◌, ◌<◌, ◌≤◌, length, get_or};
ghost use Rattle.meaning.specs.Sums.{laid};
ghost use Rattle.meaning.specs.Calls.{order0};
ghost use Rattle.lists.specs.Given.{given_by, list_by};
ghost use Rattle.forest.specs.Forest.{FirstNumbers, firsts0};
ghost use Rattle.table.specs.Table.{cell_at};
ghost use Rattle.forest.specs.Scan.{Exchanged, Turnable, Spread, Numbered, Tabled, Scannable, cell_of};

use answers::Refusal;
use lists::{Checked, Links, NODES, ROWS, Row};
use table::CELLS;

// A row of the table and the sums change places, and the row is added to the sums. The row is a slice of the table, so a clause and not its
// type says how long it is.
fn exchange(row: &mut [u32], sums: &mut [u32; NODES])
    requires full { length row.old ≡ 128 }
    requires fits { (y : ℕ) → y < 128 → get_or sums.old y 0 + get_or row.old y 0 < 2 ^ 32 }
    ensures row_then { row.new ≡ sums.old }
    ensures sums_then { (y : ℕ) → y < 128 → get_or sums.new y 0 ≡ get_or sums.old y 0 + get_or row.old y 0 }
{
    // The sums by index: of what is written through a zip of two `iter_mut`, a proof knows the length alone.
    for (y, r) in row.iter_mut().enumerate() {
        let cell = *r;
        *r = sums[y];
        sums[y] += cell;
    }
}

// The same for row x of the whole table.
fn exchange_row(x: usize, m: &mut [u32; CELLS], sums: &mut [u32; NODES])
    requires inside { x < 128 }
    requires fits { (y : ℕ) → y < 128 → get_or sums.old y 0 + cell_at m.old x y < 2 ^ 32 }
    ensures { Exchanged x m.old m.new sums.old sums.new }
{
    let from = x * NODES;
    exchange(&mut m[from..from + NODES], sums);
}

// The table of a list, and the place of each node in its order.
#[derive(Drop)]
struct Scan {
    m: [u32; CELLS],
    place: [u16; NODES],
}

impl Scan {
    // Along the order each node gets its place, and its row becomes what the rows of the nodes before it hold.
    fn spread(&mut self, order: &[u16])
        requires { Turnable order.now self.old.m }
        ensures { Spread (length order.now) order.now self.old.m self.new.m self.new.place }
    {
        let mut sums = [0u32; NODES];
        for (p, x) in order.iter().enumerate() {
            let x = usize::from(*x);
            self.place[x] = p as u16;
            exchange_row(x, &mut self.m, &mut sums);
        }
    }

    // The order of a list is run on its table, and the table is turned along it.
    fn turn(&mut self, list: &Checked<'_>)
        requires { Tabled (list_by list.now.links) self.old.m }
        ensures { Scannable (list_by list.now.links) (order0 (given_by list.now.links)) 0 self.new.place self.new.m }
    {
        let n = list.nodes();
        let mut score = [table::OPEN; NODES];
        let mut order = [0u16; NODES];
        let mut back = [0u32; NODES];
        table::run(n, n, 0, &self.m, &mut score, &mut order, &mut back);
        self.spread(&order[..n]);
    }

    // The cell of a row between x and y: that of its earlier end and its later. Both are below 128 by a clause, for the
    // reason beside `join` of `table`.
    fn cell_of(&self, x: u16, y: u16) -> usize
        requires ends { (x < 128) × (y < 128) }
        ensures cell { result ≡ cell_of self.now.place x y }
        ensures inside { result < 16384 }
    {
        let x = usize::from(x);
        let y = usize::from(y);
        if self.place[x] < self.place[y] {
            x * NODES + y
        } else {
            y * NODES + x
        }
    }

    // The number of a row, from its cell, which its cables advance.
    fn number_row(&mut self, row: Row) -> u32
        requires ends { (row.a < 128) × (row.b < 128) }
        requires room { get_or self.old.m (cell_of self.old.place row.a row.b) 0 + row.w + 1 < 2 ^ 32 }
        ensures numbered { Numbered (cell_of self.old.place row.a row.b) row.w self.old.m self.new.m result }
        ensures places { self.new.place ≡ self.old.place }
    {
        let at = self.cell_of(row.a, row.b);
        let f = self.m[at];
        self.m[at] = f + u32::from(row.w);
        f + 1
    }

    // The rows in row order, one number each.
    #[tactic(auto, using(lists::proofs::Passed::accepted))]
    fn number_rows(&mut self, list: &Checked<'_>, first: &mut [u32])
        requires room { length list.now.links.a.now ≤ length first.old }
        requires turned { Scannable (list_by list.now.links) (order0 (given_by list.now.links)) 0 self.old.place self.old.m }
        ensures { first.new ≡ laid (firsts0 (given_by list.now.links)) first.old }
    {
        let Links { a, b, w, .. } = list.links;
        for r in 0..a.len() {
            // put together here, for the reason beside `lists::Row`
            first[r] = self.number_row(Row {
                a: a[r],
                b: b[r],
                w: w[r],
            });
        }
    }
}

// The first forest numbers of a list, one for each row, in row order.
fn number(list: &Checked<'_>, first: &mut [u32])
    requires room { length list.now.links.a.now ≤ length first.old }
    ensures { first.new ≡ laid (firsts0 (given_by list.now.links)) first.old }
{
    let mut scan = Scan {
        m: [0; CELLS],
        place: [0; NODES],
    };
    // not by `table::order_of`, which leaves its table behind: here it is turned next
    table::fill(&list.links, &mut scan.m);
    scan.turn(list);
    scan.number_rows(list, first);
}

// ---- the calls

// The first forest number of each row, in row order, of a list that has passed its checks: such a list has at most `ROWS` rows.
#[tactic(auto, using(lists::proofs::Passed::accepted))]
pub fn firsts(list: &Checked<'_>, first: &mut [u32; ROWS])
    ensures { first.new ≡ laid (firsts0 (given_by list.now.links)) first.old }
{
    number(list, first);
}

// The first forest number of each row, in row order; one place per row is needed.
pub fn forest(links: &Links<'_>, first: &mut [u32]) -> Result<(), Refusal>
    ensures { FirstNumbers (given_by links.now) first.old result first.new }
{
    let list = links.check(first.len() < links.a.len())?;
    number(&list, first);
    Ok(())
}
