// Files written: a file's own events written again.
#![tactic(auto)]

pub mod tidy; // tidy.rt: tidying
