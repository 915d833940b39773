//! A call: a request with its files and its tool.

use crate::request::Request;

/// A request, the files that are there when it is asked, and the tool that runs its commands.
#[derive(Drop)]
pub struct Call<F, T> {
    pub request: Request,
    pub files: F,
    pub tool: T,
}
