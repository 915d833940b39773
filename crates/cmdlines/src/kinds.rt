//! The kinds of C compilers that are known where the program is built, each as it is found, and one of each.

ghost use Rattle.std.specs.Prelude.{◌≡◌};
ghost use Rattle.cmdlines_tables.specs.declared.compiler.CCompilerKind.TheVariants.{Clang, Diab, Gcc, Msvc, TaskingVX};

use crate::any_found::AnyFoundCompiler;
use crate::found::{FoundCompiler, HasKind};
use cmdlines_tables::CCompilerKind;
use std::alloc::{AllocError, Global};

/// The kind of Clang.
#[derive(Drop)]
pub enum ClangKind {}

impl HasKind for ClangKind {
    ghost kind = { Clang };

    fn kind() -> CCompilerKind {
        CCompilerKind::Clang
    }
}

/// Clang as it is found.
pub type Clang = FoundCompiler<ClangKind>;

/// The kind of Diab.
#[derive(Drop)]
pub enum DiabKind {}

impl HasKind for DiabKind {
    ghost kind = { Diab };

    fn kind() -> CCompilerKind {
        CCompilerKind::Diab
    }
}

/// Diab as it is found.
pub type Diab = FoundCompiler<DiabKind>;

/// The kind of Gcc.
#[derive(Drop)]
pub enum GccKind {}

impl HasKind for GccKind {
    ghost kind = { Gcc };

    fn kind() -> CCompilerKind {
        CCompilerKind::Gcc
    }
}

/// Gcc as it is found.
pub type Gcc = FoundCompiler<GccKind>;

/// The kind of Msvc.
#[derive(Drop)]
pub enum MsvcKind {}

impl HasKind for MsvcKind {
    ghost kind = { Msvc };

    fn kind() -> CCompilerKind {
        CCompilerKind::Msvc
    }
}

/// Msvc as it is found.
pub type Msvc = FoundCompiler<MsvcKind>;

/// The kind of TaskingVX.
#[derive(Drop)]
pub enum TaskingVXKind {}

impl HasKind for TaskingVXKind {
    ghost kind = { TaskingVX };

    fn kind() -> CCompilerKind {
        CCompilerKind::TaskingVX
    }
}

/// TaskingVX as it is found.
pub type TaskingVX = FoundCompiler<TaskingVXKind>;

/// Gcc and Clang.
#[derive(Drop)]
struct GnuKinds {
    gcc: Gcc,
    clang: Clang,
}

impl GnuKinds {
    /// Makes their tables.
    fn new(alloc: Global) -> Result<GnuKinds, AllocError> {
        let gcc = Gcc::new(alloc, false, None, None)?;
        let clang = Clang::new(alloc, false, None, None)?;
        Ok(GnuKinds { gcc, clang })
    }
}

/// The others.
#[derive(Drop)]
struct OtherKinds {
    diab: Diab,
    msvc: Msvc,
    tasking_vx: TaskingVX,
}

impl OtherKinds {
    /// Makes their tables.
    fn new(alloc: Global) -> Result<OtherKinds, AllocError> {
        let diab = Diab::new(alloc, false, None, None)?;
        let msvc = Msvc::new(alloc, false, None, None)?;
        let tasking_vx = TaskingVX::new(alloc, false, None, None)?;
        Ok(OtherKinds {
            diab,
            msvc,
            tasking_vx,
        })
    }
}

/// A compiler of each kind, of which nothing more is known.
#[derive(Drop)]
pub struct EachKind {
    gnu: GnuKinds,
    others: OtherKinds,
}

impl EachKind {
    /// Makes the tables of all of them.
    pub fn new(alloc: Global) -> Result<EachKind, AllocError> {
        let gnu = GnuKinds::new(alloc)?;
        let others = OtherKinds::new(alloc)?;
        Ok(EachKind { gnu, others })
    }

    /// The one of that kind.
    pub fn of(&self, kind: CCompilerKind) -> &AnyFoundCompiler
        ensures { result.now.kind ≡ kind }
    {
        match kind {
            CCompilerKind::Gcc => self.gnu.gcc.found(),
            CCompilerKind::Clang => self.gnu.clang.found(),
            CCompilerKind::Diab => self.others.diab.found(),
            CCompilerKind::Msvc => self.others.msvc.found(),
            CCompilerKind::TaskingVX => self.others.tasking_vx.found(),
        }
    }
}
