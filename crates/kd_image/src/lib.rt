// What it means that a tree stands in the image of an index, and that it became another, in specs/, and the laws of that, in proofs/.
#![tactic(auto)]
