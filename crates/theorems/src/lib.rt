// The theorems behind the front page, and the proved cases. No code: specs/ and proofs/ are all of it.
#![tactic(auto)]
