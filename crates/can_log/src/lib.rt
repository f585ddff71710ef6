// The log: records one behind the other, decoded, handed to the engine, and answered in lines of text.
//
// `item_at_front` says what stands at the front of the bytes at hand, and `render` writes one line. `start` and `advance` go through a log of any size in
// pieces of any size: the lines of all calls joined are the log's whole output, wherever the pieces were cut.
#![tactic(auto)]

mod decode;
mod lines;
mod stream;

pub use decode::{Item, Mark, Request, Stop, item_at_front};
pub use lines::{Answer, LogLine, NoRoom, render};
pub use stream::{Log, Status, Step, advance, start};
