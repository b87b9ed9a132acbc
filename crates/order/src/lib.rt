// The max-back order of a list from node 0, ties to the smallest number, and the back counts by position (document 01, "Order,
// forests, thinning"). For every input the call gives the number that document 01's table gives, and every place of the two lent
// lists holds what the document says: the order and the counts in the first n places after `Ok`, and after a refusal all that it held.
#![tactic(auto)]

ghost use Rattle.lists.specs.Given.{given_by};
ghost use Rattle.order.specs.Ordered.{Ordered};

use answers::Refusal;
use lists::Links;

pub fn order(links: &Links<'_>, order: &mut [u16], back: &mut [u32]) -> Result<(), Refusal>
    ensures { Ordered (given_by links.now) order.old back.old result order.new back.new }
{
    let n = links.n as usize;
    let short = order.len() < n || back.len() < n;
    let list = links.check(short)?;
    table::order_of(&list, order, back);
    Ok(())
}
