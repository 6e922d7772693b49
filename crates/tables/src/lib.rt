// Tables computed on the definitions of document 01 (specs/): the marked cases, each limit at its edge, each rule broken, cases of relaying and
// comparing, wrong gateways; and that each of these is ruled out (proofs/). No code stands here.
#![tactic(auto)]
