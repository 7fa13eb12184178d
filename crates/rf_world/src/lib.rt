//! Worlds and sinks: where files are read and written, and where output goes.
//! A call may fail only where a count of the object that was called rises with it.
#![tactic(auto)]

mod calls;
mod honest_sink;
mod honest_world;
mod mem_files;
mod mem_sink;
mod mem_world;
mod real_files;
mod real_folders;
mod real_paths;
mod real_sink;
mod real_world;
mod sink;
mod streams;
mod world;

pub use honest_sink::HonestSink;
pub use honest_world::HonestWorld;
pub use mem_sink::MemSink;
pub use mem_world::MemWorld;
pub use real_sink::RealSink;
pub use real_world::RealWorld;
pub use sink::{Sink, SinkErr};
pub use world::{World, WorldErr};
