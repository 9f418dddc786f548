//! The command line of a program: its options, its help and its version, the texts that it reads
//! whole, what it says where it stops, and its status.
#![tactic(auto)]

mod answers;
mod options;
mod stop;
mod texts;
mod words;

pub use answers::{answer_arguments, complain, no_command};
pub use options::{bare_program, flag, is_given, option, option_or};
pub use stop::Stop;
pub use texts::{TEXT_LIMIT, text_at, text_of};
pub use words::start;
