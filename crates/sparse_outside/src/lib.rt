//! What the checker sees of the outside: files to load, sinks to write to, and the command's words.
//!
//! Two traits stand for the outside, and each has kinds over memory, whose whole behaviour is
//! proved, and one over the system, which tells no content. Files tell what each load gave, and
//! sinks the bytes that their puts said they took, which is so of the system's too. Both traits count
//! their faults, so that a caller can tell a fault of the outside from an answer. Nothing here knows
//! of C. The definitions are in `specs/Load.antt` and `specs/Put.antt`, the laws that tie what is told
//! to what was given in `specs/Laws.antt`; start reading at [`Files`].
#![tactic(auto)]

mod files;
mod honest;
mod laws;
mod log;
mod memory;
mod memory_sink;
mod real;
mod sink;
mod trace;
mod words;

pub use files::{Files, Load};
pub use honest::HonestFiles;
pub use laws::{load_leaves_buffer, told_bytes_were_taken, told_map_agrees};
pub use memory::MemoryFiles;
pub use memory_sink::MemorySink;
pub use real::{RealFiles, RealSink};
pub use sink::{Put, Sink};
pub use words::Words;
