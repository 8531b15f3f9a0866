// Tables of trials: sessions with the stand-in, sheets and their plays, single calls. The rows stand in specs/, that they hold in proofs/.

#![tactic(auto)]
