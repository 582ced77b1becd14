// The grammar of policy files, and the reading of a string by its layout, in specs/; that they agree, in proofs/. There is no code.
#![tactic(auto)]
