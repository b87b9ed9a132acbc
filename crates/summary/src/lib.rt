// The summary of a list: n, its rows, its links (the sum of the weights) and its pairs (the different (a, b) as written), as document
// 01's "The least split" ends. `summary` promises for every input what `summary_answer` of `meaning` says. A row's pair is counted at
// its first row; the count of its like among the rows before has no branch and a narrow sum, so that it runs on whole vectors of rows.
#![tactic(auto)]

ghost use Rattle.std.specs.Prelude.{◌≡◌, ◌<◌, ◌≤◌, ◌&&◌, ◌==◌, length, map, sum, count_by};
ghost use Rattle.std.specs.List.{zip, range_with_len};
ghost use Rattle.std.specs.Int.{from_bool};
ghost use Rattle.meaning.specs.Links.{same_before};
ghost use Rattle.meaning.specs.Calls.{summary_answer};
ghost use Rattle.answers.specs.Paper.{totals_paper};
ghost use Rattle.lists.specs.Given.{given_by, list_by};

use answers::{Refusal, Totals};
use lists::{Checked, Links};

// The rows of two columns that have the ends x and y: of a part of a list, which is no list that passed.
fn rows_like(a: &[u16], b: &[u16], x: u16, y: u16) -> u16
    requires few { length a.now ≤ 2048 }
    ensures { result ≡ sum (map (λ p. from_bool (p.0 == x && p.1 == y)) (zip a.now b.now)) }
{
    a.iter()
        .zip(b)
        .map(|(&p, &q)| u16::from((p == x) & (q == y)))
        .sum()
}

// The rows before r with the same two ends as written.
#[tactic(auto, using(lists::proofs::Passed::accepted, crate::proofs::Counts::fronts))]
fn same_before(list: &Checked<'_>, r: usize) -> u16
    requires { r < length list.now.links.a.now }
    ensures { result ≡ same_before (list_by list.now.links) r }
{
    let Links { a, b, .. } = list.links;
    rows_like(&a[..r], &b[..r], a[r], b[r])
}

// The number of different pairs: the rows that have none like them before.
#[tactic(auto, using(lists::proofs::Passed::accepted))]
fn pairs_in(list: &Checked<'_>) -> usize
    ensures counts { result ≡ count_by (λ r. same_before (list_by list.now.links) r == 0)
        (range_with_len 0 (length list.now.links.a.now)) }
    ensures few { result ≤ 2048 }
{
    (0..list.links.a.len())
        .filter(|&r| same_before(list, r) == 0)
        .count()
}

// The sum of the weights.
fn links_in(w: &[u16]) -> u32
    requires few { length w.now ≤ 2048 }
    ensures { result ≡ sum w.now }
{
    w.iter().map(|&x| u32::from(x)).sum()
}

#[tactic(auto, using(lists::proofs::Passed::accepted))]
pub fn summary(links: &Links<'_>) -> Result<Totals, Refusal>
    ensures { totals_paper result ≡ summary_answer (given_by links.now) }
{
    let list = links.check(false)?;
    Ok(Totals {
        n: links.n,
        rows: links.a.len(),
        links: links_in(links.w),
        pairs: pairs_in(&list) as u32,
    })
}
