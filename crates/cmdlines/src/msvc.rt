//! The response files that Msvc opens.

pub use cmdlines_response_files::msvc::ExpandIncludeFile;
