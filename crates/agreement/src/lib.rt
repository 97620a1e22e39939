// The judge and the register agree on every schedule: definitions in specs/, laws in proofs/, no code.
#![tactic(auto)]
