// What opening a register and a step of it promise of any words: definitions in specs/, laws in proofs/, no code.
#![tactic(auto)]
