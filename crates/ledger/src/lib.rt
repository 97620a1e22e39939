// The judge's words as a ledger of commits and open transactions: definitions in specs/, laws in proofs/, no code.
#![tactic(auto)]
