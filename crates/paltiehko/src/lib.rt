// The library as other programs see it: each call under its plain name, as include/paltiehko.h declares it. A function hands its
// arguments to the proved call and lays the answer out in the eight places of `answer`: number, place, the fields in document 01's
// order, then zeros. Each promises for every input what `meaning` says of its call, with the answer as `laid_out` lays it.
#![tactic(auto)]

ghost use Rattle.std.specs.Prelude.{◌≡◌, ℕ, List, [], ◌∷◌};
ghost use Rattle.meaning.specs.Links.{given};
ghost use Rattle.meaning.specs.Calls.{least_answer, fewer_answer, summary_answer};
ghost use Rattle.answers.specs.Paper.{paper, found_fields, parted_fields, totals_fields};
ghost use Rattle.paltiehko.specs.Layout.{laid_out, fields_laid};
ghost use Rattle.paltiehko.specs.Leaves.{Reading, Writing, Reporting, Ordering, Numbering, Keeping, Shortening};

use answers::{Found, Refusal, Side, Split, Totals};
use lists::{Columns, Links};

// ---- answers laid out

// What a call answers where it does not refuse: its fields on paper, and in the six places after number and place.
trait Fields {
    ghost fields: { Self → List ℕ };

    fn laid(self) -> [u64; 6]
        ensures { result ≡ fields_laid (fields self) };
}

impl Fields for () {
    ghost fields = { λ _. [] };

    fn laid(self) -> [u64; 6] {
        [0; 6]
    }
}

// A number of bytes or of rows.
impl Fields for usize {
    ghost fields = { λ m. m ∷ [] };

    fn laid(self) -> [u64; 6] {
        [self as u64, 0, 0, 0, 0, 0]
    }
}

impl Fields for Found {
    ghost fields = { found_fields };

    fn laid(self) -> [u64; 6] {
        [u64::from(self.n), self.rows as u64, 0, 0, 0, 0]
    }
}

impl Fields for Split {
    ghost fields = { parted_fields };

    fn laid(self) -> [u64; 6] {
        let Side { low, high, size } = self.side;
        [u64::from(self.value), low, high, u64::from(size), 0, 0]
    }
}

impl Fields for Totals {
    ghost fields = { totals_fields };

    fn laid(self) -> [u64; 6] {
        [
            u64::from(self.n),
            self.rows as u64,
            u64::from(self.links),
            u64::from(self.pairs),
            0,
            0,
        ]
    }
}

// An answer in its eight places.
fn laid_out<T: Fields>(answer: Result<T, Refusal>) -> [u64; 8]
    ensures { result ≡ laid_out (paper T.fields answer) }
{
    let (number, place, [a, b, c, d, e, f]) = match answer {
        Ok(x) => (0, 0, x.laid()),
        Err(refusal) => (refusal.number(), refusal.place(), [0; 6]),
    };
    [u64::from(number), place as u64, a, b, c, d, e, f]
}

// ---- calls: the lists are lent one by one, and not as `Links` or `Columns`, since that is how the C interface lends them

#[unsafe(no_mangle)]
pub extern "C" fn paltiehko_read(
    src: &[u8],
    a: &mut [u16],
    b: &mut [u16],
    w: &mut [u16],
    answer: &mut [u64; 8],
)
    ensures { Reading src.now a.old b.old w.old
        answer.new a.new b.new w.new }
{
    *answer = laid_out(read::read(src, &mut Columns { a, b, w }));
}

#[unsafe(no_mangle)]
pub extern "C" fn paltiehko_write(
    n: u32,
    a: &[u16],
    b: &[u16],
    w: &[u16],
    out: &mut [u8],
    answer: &mut [u64; 8],
)
    ensures { Writing (given n a.now b.now w.now) out.old
        answer.new out.new }
{
    *answer = laid_out(write::write(&Links { n, a, b, w }, out));
}

#[unsafe(no_mangle)]
pub extern "C" fn paltiehko_order(
    n: u32,
    a: &[u16],
    b: &[u16],
    w: &[u16],
    order: &mut [u16],
    back: &mut [u32],
    answer: &mut [u64; 8],
)
    ensures { Ordering (given n a.now b.now w.now) order.old back.old
        answer.new order.new back.new }
{
    *answer = laid_out(order::order(&Links { n, a, b, w }, order, back));
}

#[unsafe(no_mangle)]
pub extern "C" fn paltiehko_forest(
    n: u32,
    a: &[u16],
    b: &[u16],
    w: &[u16],
    first: &mut [u32],
    answer: &mut [u64; 8],
)
    ensures { Numbering (given n a.now b.now w.now) first.old
        answer.new first.new }
{
    *answer = laid_out(forest::forest(&Links { n, a, b, w }, first));
}

#[unsafe(no_mangle)]
pub extern "C" fn paltiehko_kept(
    n: u32,
    a: &[u16],
    b: &[u16],
    w: &[u16],
    k: u32,
    kept: &mut [u16],
    answer: &mut [u64; 8],
)
    ensures { Keeping (given n a.now b.now w.now) k kept.old
        answer.new kept.new }
{
    *answer = laid_out(thin::kept(&Links { n, a, b, w }, k, kept));
}

#[unsafe(no_mangle)]
pub extern "C" fn paltiehko_short(
    n: u32,
    a: &[u16],
    b: &[u16],
    w: &[u16],
    k: u32,
    a2: &mut [u16],
    b2: &mut [u16],
    w2: &mut [u16],
    answer: &mut [u64; 8],
)
    ensures { Shortening (given n a.now b.now w.now) k a2.old b2.old w2.old
        answer.new a2.new b2.new w2.new }
{
    *answer = laid_out(thin::short(
        &Links { n, a, b, w },
        k,
        &mut Columns {
            a: a2,
            b: b2,
            w: w2,
        },
    ));
}

#[unsafe(no_mangle)]
pub extern "C" fn paltiehko_least(n: u32, a: &[u16], b: &[u16], w: &[u16], answer: &mut [u64; 8])
    ensures { answer.new ≡ laid_out (least_answer (given n a.now b.now w.now)) }
{
    *answer = laid_out(least::least(&Links { n, a, b, w }));
}

#[unsafe(no_mangle)]
pub extern "C" fn paltiehko_fewer(
    n: u32,
    a: &[u16],
    b: &[u16],
    w: &[u16],
    k: u32,
    answer: &mut [u64; 8],
)
    ensures { answer.new ≡ laid_out (fewer_answer (given n a.now b.now w.now) k) }
{
    *answer = laid_out(least::fewer(&Links { n, a, b, w }, k));
}

#[unsafe(no_mangle)]
pub extern "C" fn paltiehko_summary(n: u32, a: &[u16], b: &[u16], w: &[u16], answer: &mut [u64; 8])
    ensures { answer.new ≡ laid_out (summary_answer (given n a.now b.now w.now)) }
{
    *answer = laid_out(summary::summary(&Links { n, a, b, w }));
}

#[unsafe(no_mangle)]
pub extern "C" fn paltiehko_report(src: &[u8], out: &mut [u8], answer: &mut [u64; 8])
    ensures { Reporting src.now out.old answer.new out.new }
{
    *answer = laid_out(reporting::report(src, out));
}
