// Tables of trials: HEX texts and the sheets made of them, captures and the verdicts on them. The rows stand in specs/, that they hold in
// proofs/.

#![tactic(auto)]
