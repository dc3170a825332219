// Handling a request: from the frame to the response.
#![tactic(auto)]

pub mod request;
