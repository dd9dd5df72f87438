//! What a search over all runs may leave out (names of objects, orders of transitions that need no choice, and labels
//! outside a stubborn set), and what it tells: the ends of runs, their outputs, errors and dead objects.
//!
//! Definitions and laws only.
//!
//! Does not know: how a search stores or visits configurations.
#![tactic(auto)]

pub mod theorems;
