// A good round always closes: the statement in specs/ and its proof in proofs/.
#![tactic(auto)]
