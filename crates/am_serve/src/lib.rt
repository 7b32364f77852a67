//! A session over a reader and a writer: each line is answered before the next is awaited.
#![tactic(auto)]

mod answering;
pub mod complaints;
pub mod head;
mod hear;
mod held;
mod keeping;
mod number;
pub mod orders;
mod reading;
pub mod request;
pub mod service;
pub mod stands;
mod tell;
pub mod telling;
mod text;
mod word;

pub use answering::reply;
pub use complaints::{Complaint, kind_word};
pub use reading::serve;
pub use service::{Saved, Service};
pub use stands::{Serving, Stand};
