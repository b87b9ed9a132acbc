// Laws of the tools that document 01's definitions are made of (sums, lists, rows, the choice of the next node, the order, the
// checks), for every crate above: no function stands here. `specs/` holds the laws, one file to an idea.
#![tactic(auto)]
