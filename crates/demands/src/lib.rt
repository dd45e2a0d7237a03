// No code: what the paper demands of the operations, said of their calls (specs/) and proved (proofs/).
#![tactic(auto)]
