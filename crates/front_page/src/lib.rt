// The front page of what is proved. No code: proofs/FrontPage is all of it.
#![tactic(auto)]
