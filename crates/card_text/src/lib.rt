// A settings card as a text: definitions and laws, in specs/ and proofs/. No functions.
#![tactic(auto)]
