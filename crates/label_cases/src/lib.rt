// The cases have no code: specs/ holds them, by computation.
#![tactic(auto)]
