//! The grammar: which tokens form which program, how deep a token is nested, and which texts are programs.
//!
//! Definitions only.
//!
//! Does not know: how a program is parsed or run.
#![tactic(auto)]
