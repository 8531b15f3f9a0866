// What the stand-in tells, and what not: facts about the definitions and about calls that meet their promise, with no code of their own. What is
// said stands in specs/, with its proof in proofs/.

#![tactic(auto)]
