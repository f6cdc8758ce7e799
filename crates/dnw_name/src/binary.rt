//! Types that can be read from a message.

mod decode;

pub use decode::BinDecodable;
