//! Sessions on small worlds, run with ample memory, and what happened compared with what the standard says of
//! their code.
#![tactic(auto)]

#[cfg(test)]
mod cases;
#[cfg(test)]
mod worlds;
