//! Message blocks over counted data blocks. They make messages, which are held as tokens or are on shelves.
#![tactic(auto)]

mod block_info;
mod block_place;
mod blocks;
mod census;
mod limits;
mod rejected;
mod token;

pub use block_info::BlockInfo;
pub use block_place::{BlockPlace, Shape, Shaped};
pub use blocks::{BlockNo, Blocks, Supply};
pub use census::Census;
pub use limits::MOST_MESSAGE_BLOCKS;
pub use rejected::Rejected;
pub use token::{Token, TokenValue};
