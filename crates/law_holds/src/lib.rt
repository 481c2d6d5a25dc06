// The law holds: theorems in specs/, no code.
#![tactic(auto)]
