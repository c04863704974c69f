// No code: specs/ holds the replay of a journal by the server's definition and what an accepted one says, proofs/ the proofs.

#![tactic(auto)]
