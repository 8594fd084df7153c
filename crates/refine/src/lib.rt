// The byte model of a run refines the machine of `rules`: see specs/. This crate has no functions.
#![tactic(auto)]
