// The three demands, as theorems about the definitions that the public contracts cite: specs/ has them, and there is no code.
#![tactic(auto)]
