//! What one may ask of a hall, and what it answers.
mod answers;
mod events;
mod replies;
mod requests;
mod steps;

pub use answers::Answer;
pub use events::Event;
pub use replies::Reply;
pub use requests::Request;
pub use steps::{Step, Stepped};
