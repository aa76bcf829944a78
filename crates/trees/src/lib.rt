// The typed hash trees of document 000 have no code: specs/ holds their definitions and theorems.
#![tactic(auto)]
