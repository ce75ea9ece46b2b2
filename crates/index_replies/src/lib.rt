// What a call leaves of an image, in specs/, and the laws that the calls of both indexes are proved by, in proofs/.
#![tactic(auto)]
