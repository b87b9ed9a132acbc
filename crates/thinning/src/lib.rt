// Why forest numbers and thinning are right, and nothing else: no function stands here. `specs/` proves, for any max-back order, document
// 01's "Order, forests, thinning" and what demand 3 asks of a thinned list: document 003's scan gives the closed form, no row grows, at
// most k(n - 1) cables are kept, no division falls below the smaller of k and its value, and the short list answers for k as the full one.
#![tactic(auto)]
