//! What a search over all runs is about: reached, stuck and faulty configurations, and the labels to try.
//!
//! Definitions only.
//!
//! Does not know: how a search stores or visits configurations.
#![tactic(auto)]
