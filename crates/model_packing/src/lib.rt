// Proposals of a packer, as definitions and their laws: `specs/` and `proofs/`. There is nothing to run here.
#![tactic(auto)]
