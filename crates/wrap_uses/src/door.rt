//! The names of a caller of a session, by `wrap` alone: this is built only while it hands on each of them.

pub use wrap::{
    Answer, AnyC, ArtifactDescriptor, CCompiler, CCompilerKind, CParts, CShape, Call, Clang,
    Compiled, Compiler, Config, ConfigError, Diab, EntryKey, EnvDep, Family, Fault, FileFail,
    FileTime, Files, Fingerprint, Gcc, HashState, How, KeyConfig, Language, Listed, LruStore,
    MapStore, MemoryFile, MemoryFiles, Metadata, Msvc, Named, OsBytes, Output, OutputName, Pairs,
    Part, Parts, Preprocessor, PreprocessorCacheEntry, Printed, RShape, Reason, Request, Rust,
    RustFault, RustcAnswers, Session, Shape, SingleCompileCommand, Step, Store, StoreKey,
    TaskingVX, Ticks, Tool, ToolFail, Zone, ZoneError, explain,
};
