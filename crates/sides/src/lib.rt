// The side of a division as two 64-bit words, node i being bit i mod 64 of word i div 64 ("The least split" of document 01): made
// from the nodes' group numbers, counted by the ones of both words, and listed from the lowest by trailing zeros. Both calls state
// their whole answer for every input, and `proofs/Laws.antt` shows that the words of a set of nodes list exactly its members.
#![tactic(auto)]

ghost use Rattle.std.specs.Prelude.{◌≡◌, ◌≤◌, length};
ghost use Rattle.std.specs.Int.Count.{ones};
ghost use Rattle.answers.specs.Paper.{wrote_paper};
ghost use Rattle.sides.specs.Bits.{bits, rising, members_answer, members_leaves, labelled, Sided};

use answers::{Refusal, Side};

// The labels of one word that are t, as its bits, the lowest first.
fn word(label: &[u16], t: u16) -> u64
    requires { length label.now ≤ 64 }
    ensures { result ≡ bits 0 (length label.now) (labelled label.now t) }
{
    let mut x: u64 = 0;
    for (i, l) in label.iter().enumerate() {
        x += u64::from(*l == t) << i;
    }
    x
}

// The nodes whose label is t, of the first 128.
pub fn side(label: &[u16], t: u16) -> Side
    ensures { Sided (length label.now) (labelled label.now t) result }
{
    let middle = label.len().min(64);
    let end = label.len().min(128);
    let low = word(&label[..middle], t);
    let high = word(&label[middle..end], t);
    let size = low.count_ones() + high.count_ones();
    Side { low, high, size }
}

// Lists the set bits of x, bit 0 being numbered `from`, in as many places.
fn list(x: u64, from: u16, out: &mut [u16])
    requires { (from ≤ 64) × (length out.old ≡ ones x) }
    ensures { out.new ≡ rising 64 from x }
{
    let mut rest = x;
    for place in out.iter_mut() {
        let low = rest.trailing_zeros();
        *place = from + low as u16;
        rest -= 1 << low;
    }
}

// The members of the side with these words, lowest first.
pub fn members(low: u64, high: u64, out: &mut [u16]) -> Result<usize, Refusal>
    ensures answer { wrote_paper result ≡ members_answer low high (length out.old) }
    ensures leaves { out.new ≡ members_leaves low high out.old }
{
    let middle = low.count_ones() as usize;
    let end = middle + high.count_ones() as usize;
    if out.len() < end {
        return Err(Refusal::ShortRoom);
    }
    list(low, 0, &mut out[..middle]);
    list(high, 64, &mut out[middle..end]);
    Ok(end)
}
