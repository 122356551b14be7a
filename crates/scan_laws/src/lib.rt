// What an accepted file is: laws over the definitions of lines, machine, file and scan. No code: proofs/ is all of it.
#![tactic(auto)]
