// Thinning for k: the kept weight of each row, and the short list (document 01, "Order, forests, thinning").
//
// Both calls check the list, number its rows by `forest::firsts` and pass over them once. `kept` promises, for every input, its answer and
// every place of the lent list (`meaning`'s `kepts_of`); `short` the same of its three lists and the number of rows written (`short_given`).
#![tactic(auto)]

ghost use Rattle.std.specs.Prelude.{◌≡◌, ◌+◌, ◌≤◌, ◌<◌, length, IfOk};
ghost use Rattle.meaning.specs.Sums.{laid, listed};
ghost use Rattle.meaning.specs.Forest.{kept_of};
ghost use Rattle.lists.specs.Given.{given_by, list_by, SameLists};
ghost use Rattle.thin.specs.Thin.{KeptWeights, ShortList, Thinnable};
ghost use Rattle.thin.specs.Passes.{kept_at, thinned, Roomy, Put, Shortened};

use answers::Refusal;
use lists::{Checked, Columns, Links, ROWS, Row};

// What a row of weight w keeps whose first cable has the number f: k + 1 - f, but no less than 0 and no more than w. k + 1 may not fit in
// 32 bits, so f is subtracted first and 1 added after. Where even that does not fit, the sum stays at the largest 32-bit number, which is
// more than any weight.
fn kept_of(k: u32, f: u32, w: u16) -> u16
    ensures { result ≡ kept_of k f w }
{
    match k.checked_sub(f) {
        Some(over) => over.saturating_add(1).min(u32::from(w)) as u16,
        None => 0,
    }
}

// In the passes below k, the list and its first numbers stay three parameters: a struct of the three would be made and taken apart at once.

// The kept weights, one per row.
#[tactic(auto, using(lists::proofs::Passed::accepted))]
fn keep(k: u32, list: &Checked<'_>, first: &[u32; ROWS], kept: &mut [u16])
    requires { length list.now.links.w.now ≤ length kept.old }
    ensures { kept.new ≡ laid (listed (length list.now.links.w.now) (kept_at k first.now (list_by list.now.links))) kept.old }
{
    let w = list.links.w;
    // By index: `kept` may be longer than the list, and only its first places are written, one for each row.
    for r in 0..w.len() {
        kept[r] = kept_of(k, first[r], w[r]);
    }
}

// Row r with its kept weight.
#[tactic(auto, using(lists::proofs::Passed::accepted))]
fn thinned(k: u32, list: &Checked<'_>, first: &[u32; ROWS], r: usize) -> Row
    requires { r < length list.now.links.a.now }
    ensures { result ≡ thinned k first.now (list_by list.now.links) r }
{
    let Links { a, b, w, .. } = list.links;
    // put together here, for the reason beside `lists::Row`
    Row {
        a: a[r],
        b: b[r],
        w: kept_of(k, first[r], w[r]),
    }
}

// Puts a row at the place `at` of the short list and answers the next place. A row that keeps nothing is left out, and `at` is answered.
// Weight 0 stands for "keeps nothing", as in `kept_of` of `meaning` and in the lists that the call `kept` writes.
fn put(row: Row, at: usize, out: &mut Columns<'_>) -> usize
    requires { Roomy (at + 1) out.old }
    ensures same { SameLists out.old out.new }
    ensures put { Put row at out.old out.new result }
{
    if row.w == 0 {
        return at;
    }
    // stored here, for the reason beside `lists::Columns`
    out.a[at] = row.a;
    out.b[at] = row.b;
    out.w[at] = row.w;
    at + 1
}

// The rows that keep something, in order; how many they are.
fn shorten(k: u32, list: &Checked<'_>, first: &[u32; ROWS], out: &mut Columns<'_>) -> usize
    requires { Roomy (length list.now.links.a.now) out.old }
    ensures same { SameLists out.old out.new }
    ensures shortened { Shortened k first.now (list_by list.now.links) (length list.now.links.a.now) out.old out.new result }
{
    let mut at = 0;
    for r in 0..list.links.a.len() {
        let row = thinned(k, list, first, r);
        at = put(row, at, out);
    }
    at
}

// ---- the calls

// The checks, and the first forest number of each row.
fn number<'a>(
    links: &Links<'a>,
    k: u32,
    short: bool,
    first: &mut [u32; ROWS],
) -> Result<Checked<'a>, Refusal>
    ensures thinnable { Thinnable (given_by links.now) k short first.old result first.new }
    ensures same { IfOk result (λ c. c.links ≡ links.now) }
{
    let list = links.check(short)?;
    if k == 0 {
        return Err(Refusal::ZeroK);
    }
    forest::firsts(&list, first);
    Ok(list)
}

// The kept weight of each row for k; one place per row is needed.
pub fn kept(links: &Links<'_>, k: u32, kept: &mut [u16]) -> Result<(), Refusal>
    ensures { KeptWeights (given_by links.now) k kept.old result kept.new }
{
    let mut first = [0; ROWS];
    let list = number(links, k, kept.len() < links.a.len(), &mut first)?;
    keep(k, &list, &first, kept);
    Ok(())
}

// The short list for k; one place per given row is needed in each of its three lists. Answers the number of rows written.
pub fn short(links: &Links<'_>, k: u32, out: &mut Columns<'_>) -> Result<usize, Refusal>
    ensures same { SameLists out.old out.new }
    ensures leaves { ShortList (given_by links.now) k out.old.a.now out.old.b.now out.old.w.now result
        out.new.a.now out.new.b.now out.new.w.now }
{
    let mut first = [0; ROWS];
    let list = number(links, k, out.lack(links.a.len()), &mut first)?;
    Ok(shorten(k, &list, &first, out))
}
