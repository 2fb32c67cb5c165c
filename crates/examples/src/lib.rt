// 01's examples, made-up calls, and calls told by the second program, each with its whole reply: lists in specs/, which antt computes in proofs/.
#![tactic(auto)]
