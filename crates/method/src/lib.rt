// Why the method is right: theorems about the definitions of `meaning`, and no function. `specs/Order.antt`: document 01's order is a
// max-back order, and the only one with its ties. `specs/Claim.antt`: what any max-back order says of the divisions that part two of its
// nodes. `specs/Least.antt`, `Words.antt`, `Question.antt`: the least split is least, its words hold its side, and "fewer than k?" is answered
// rightly both ways. `specs/Wrong.antt`: shortcuts that look right, and the lists on which they are wrong.
#![tactic(auto)]
