// Runs and decodings come to rest: the statement in specs/Rests.antt, its proof in specs/Theorem.antt, no code.
#![tactic(auto)]
