// The theory of the rules: see specs/ and proofs/. This crate has no functions.
#![tactic(auto)]
