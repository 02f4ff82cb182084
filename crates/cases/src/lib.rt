// No code: paper 01's worked examples, "Checked by hand", as one fact about the definitions (specs/ByHand.antt).
#![tactic(auto)]
