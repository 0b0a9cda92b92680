//! Tests of whole runs by the public calls of `glb_run` and of the crates below it: a crate of
//! their own, so that they are proved beside the tests that look into `glb_run`.
#![tactic(auto)]

#[cfg(test)]
mod tests;
