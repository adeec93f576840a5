//! The exported functions of the library for C, and nothing else. Each call works in buffers of the
//! caller. After an error all its outputs are unchanged, except the place of what is wrong.
#![tactic(auto, using(goqlanis_buffers::proofs::Reported::reported, goqlanis_buffers::proofs::Reported::reported_at))]

mod areas;
mod encoding;
mod pictures;
mod reading;
mod release;
mod shape;
