// What is claimed of the index on bytes, over what its doors ensure, and the proofs. Specs and proofs alone.
#![tactic(auto)]
