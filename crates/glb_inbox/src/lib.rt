//! The fabric of inboxes: an inbox for each place, through which places send requests and parts.
#![tactic(auto)]

mod acts;
mod books;
mod close;
mod cuts;
mod desk;
mod first;
mod gifts;
mod home;
mod inbox;
mod inbox_rule;
mod keeping;
mod lane;
mod lanes;
mod looking;
mod message;
mod moves;
mod office;
mod plays;
mod post;
mod rule;
mod seats;
mod sending;
mod trades;
mod view;
mod way;
mod words;

pub use close::Closed;
pub use desk::Desk;
pub use home::DeskHome;
pub use post::Post;
