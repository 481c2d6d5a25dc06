// The law joined to what ships. Theorems only, stated in specs/ and proved in proofs/: Link.antt joins it to the promises of the calls, Account.antt to the streams of a decoding.
#![tactic(auto)]
