// A sheet moved to the other form: facts about the definitions alone, with no code of their own. What is said stands in specs/, its proof in
// proofs/.

#![tactic(auto)]
