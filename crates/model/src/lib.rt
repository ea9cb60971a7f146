// The meaning of VP1's instructions: definitions in specs/ and theorems in proofs/. There is no code here.
#![tactic(auto)]
