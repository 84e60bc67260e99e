//! The data of an object of which only some blocks are known. `PartData` keeps a size and the known
//! blocks of 4,096 bytes; past the blocks of the object before, zeros are known. A read needs the
//! blocks that it meets, which `unknown` tells; a write and a cut need none, and change those that
//! are known. What a call promises, it promises of all data that agrees with what is known.
#![tactic(auto)]

mod block;
mod blocks;
mod part_data;
mod unknown;

pub use block::BLOCK_SIZE;
pub use part_data::PartData;
pub use unknown::Unknown;
