// No code: proofs/ holds the proofs of the claims that model/specs states.

#![tactic(auto)]
