// Blocks summed and erased: facts about the definitions alone, with no code of their own. What is said stands in specs/ and, with its proof,
// in proofs/.

#![tactic(auto)]
