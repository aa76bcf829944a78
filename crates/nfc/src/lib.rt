// UTF-8, the repertoire of titles and Normalization Form C, as the Unicode Standard has them: specs/ has them, and there is no code.
#![tactic(auto)]
