// The theorems that join the readers and the writers stand in `proofs/`; this crate has no code of its own.
#![tactic(auto)]
