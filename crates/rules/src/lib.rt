// The rules of the register, over tables and any kind of value: definitions in specs/, laws in proofs/, no code.
#![tactic(auto)]
