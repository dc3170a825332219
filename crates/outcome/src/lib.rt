// What a request does and what is sent back: the definitions, the replies and answers of the code, and the refusals of a call.
#![tactic(auto)]

pub mod answer;
pub mod hwpid;
pub mod memories;
pub mod refusals;
pub mod reply;
pub mod request;
