//! Tests of what no run shows: single acts of a node, request numbers, pools of cells, mailboxes, one wire, the bytes
//! of frames, files and sinks in memory that fail, and the canonical texts of programs with class faults, which `pool`
//! refuses.
//!
//! Expected answers come from handwritten rows, or from plain lists in long drawn series.
#![tactic(auto)]

#[cfg(test)]
mod bytes;
#[cfg(test)]
mod calls;
#[cfg(test)]
mod drawn;
#[cfg(test)]
mod mailboxes;
#[cfg(test)]
mod nodes;
#[cfg(test)]
mod outside;
#[cfg(test)]
mod plain;
#[cfg(test)]
mod pools;
#[cfg(test)]
mod printed;
#[cfg(test)]
mod requests;
#[cfg(test)]
mod series;
#[cfg(test)]
mod steps;
#[cfg(test)]
mod untyped_rows;
#[cfg(test)]
mod worked;
