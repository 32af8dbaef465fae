//! The entries with which a mesh of four points begins.
#![tactic(auto)]
