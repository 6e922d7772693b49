// Document 01 as definitions (specs/), the laws about them and the demands (proofs/). No code stands here.
#![tactic(auto)]
