// NFC against stored answers of another implementation, by computation: specs/ has them, and there is no code.
#![tactic(auto)]
