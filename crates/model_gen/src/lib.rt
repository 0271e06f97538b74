//! A model to try: a ring of stations, after Herman's self-stabilising ring.
#![tactic(auto)]

mod formula;
mod stations;
mod text;

pub use text::ring;

#[cfg(test)]
mod tests;
