// What the plain definition of an accepted file says of its table: laws over the definitions of `file`. No code: proofs/ is all of it.
#![tactic(auto)]
