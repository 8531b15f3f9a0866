// A sheet made of a HEX text and played by the joined calls: facts alone, with no code of their own. What is said stands in specs/ and, with its
// proof, in proofs/.

#![tactic(auto)]
