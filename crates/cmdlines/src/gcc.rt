//! The response files that Gcc and Clang open.

pub use cmdlines_response_files::gcc::ExpandIncludeFile;
