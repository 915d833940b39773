//! The variables that compilers read, by GCC's and Clang's manuals.

use crate::rows::{Question, Row, are_answered, yes_or_no};
use cache_known_options::is_read;
use std::test::Fail;

/// Names of variables, and whether compilers read them.
const VARIABLES: &str = r#"
LANG => yes
LC_CTYPE => yes
LC_MESSAGES => yes
LC_ALL => yes
GCC_COMPARE_DEBUG => yes
GCC_EXEC_PREFIX => yes
COMPILER_PATH => yes
LIBRARY_PATH => yes
CPATH => yes
C_INCLUDE_PATH => yes
CPLUS_INCLUDE_PATH => yes
OBJC_INCLUDE_PATH => yes
OBJCPLUS_INCLUDE_PATH => yes
DEPENDENCIES_OUTPUT => yes
SUNPRO_DEPENDENCIES => yes
SOURCE_DATE_EPOCH => yes
GCC_COLORS => yes
GCC_URLS => yes
MACOSX_DEPLOYMENT_TARGET => yes
IPHONEOS_DEPLOYMENT_TARGET => yes
CCC_OVERRIDE_OPTIONS => yes
SDKROOT => yes
PWD => yes
SCCACHE_C_CUSTOM_CACHE_BUSTER => yes

 => no
_ => no
OLDPWD => no
SHLVL => no
MAKEFLAGS => no
MAKELEVEL => no
EDITOR => no
SSH_TTY => no
lang => no
CPATHS => no
"#;

/// Whether compilers read a variable.
struct IsRead;

impl Question for IsRead {
    fn answer(&self, rt: &HostRuntime, row: &Row<'_>) -> Result<String, Fail> {
        yes_or_no(rt.alloc(), is_read(row.first.as_bytes()))
    }
}

#[test]
fn compilers_read_variables(rt: HostRuntime) -> Result<(), Fail> {
    are_answered(&rt, VARIABLES, &IsRead)
}
