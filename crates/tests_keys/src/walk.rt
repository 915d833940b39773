//! What walks over texts name, as gcc 12.2 prints them by `-E`, with the files that it lists for them by `-M`; and how often walks ask for files.

use ckeys_marker_walk::walk::walk;
use std::alloc::{AllocError, Global};
use std::test::Fail;
use tests_kit::{Checks, WatchedFiles, files_of};

/// Of a source that includes `vector`. Most of the headers are left out with all that is between them, but for each form of a marker one
/// is kept here.
const VECTOR: &[u8] = b"# 0 \"v.cc\"\n# 0 \"<built-in>\"\n# 0 \"<command-line>\"\n\
    # 1 \"/usr/include/stdc-predef.h\" 1 3 4\n# 0 \"<command-line>\" 2\n# 1 \"v.cc\"\n\
    # 1 \"/usr/include/c++/12/vector\" 1 3\n# 58 \"/usr/include/c++/12/vector\" 3\n       \n\
    # 59 \"/usr/include/c++/12/vector\" 3\n\n\
    # 1 \"/usr/include/x86_64-linux-gnu/c++/12/bits/c++config.h\" 1 3\n\
    # 296 \"/usr/include/x86_64-linux-gnu/c++/12/bits/c++config.h\" 3\nnamespace std\n{\n\
    #pragma GCC visibility push(default)\n  typedef long unsigned int size_t;\n\
    #pragma GCC visibility pop\n}\n# 1 \"/usr/include/features.h\" 1 3 4\n\
    # 392 \"/usr/include/features.h\" 3 4\n\
    # 1 \"/usr/include/x86_64-linux-gnu/bits/wordsize.h\" 1 3 4\n\
    # 393 \"/usr/include/features.h\" 2 3 4\n\
    # 656 \"/usr/include/x86_64-linux-gnu/c++/12/bits/c++config.h\" 2 3\n\
    # 1 \"/usr/include/x86_64-linux-gnu/bits/wordsize.h\" 1 3 4\n\
    # 657 \"/usr/include/x86_64-linux-gnu/c++/12/bits/c++config.h\" 2 3\n\
    # 60 \"/usr/include/c++/12/vector\" 2 3\n\
    #pragma GCC diagnostic ignored \"-Wctor-dtor-privacy\"\n  template<typename _Tp> class vector;\n\
    # 2 \"v.cc\" 2\n\n# 2 \"v.cc\"\nint main() { return 0; }\n";

/// Of a source in a folder whose name has a space, a quote and a backslash, whole but for the definitions in `stddef.h`.
const ODD_FOLDER: &[u8] = b"# 0 \"we\\\"ird \\\\dir/a.c\"\n# 0 \"<built-in>\"\n\
    # 0 \"<command-line>\"\n# 1 \"/usr/include/stdc-predef.h\" 1 3 4\n# 0 \"<command-line>\" 2\n\
    # 1 \"we\\\"ird \\\\dir/a.c\"\n# 1 \"we\\\"ird \\\\dir/h.h\" 1\nint q;\n\
    # 2 \"we\\\"ird \\\\dir/a.c\" 2\n# 1 \"we\\\"ird \\\\dir/s h.h\" 1\nint s;\n\
    # 3 \"we\\\"ird \\\\dir/a.c\" 2\n\
    # 1 \"/usr/lib/gcc/x86_64-linux-gnu/12/include/stddef.h\" 1 3 4\n\
    # 145 \"/usr/lib/gcc/x86_64-linux-gnu/12/include/stddef.h\" 3 4\n\n\
    typedef long int ptrdiff_t;\n# 4 \"we\\\"ird \\\\dir/a.c\" 2\n\
    # 1 \"we\\\"ird \\\\dir/h.h\" 1\n\n# 1 \"we\\\"ird \\\\dir/h.h\"\nint q;\n\
    # 5 \"we\\\"ird \\\\dir/a.c\" 2\nint main(void) { return 0; }\n";

/// The files that are there, all empty.
const FILES: [(&str, &[u8]); 11] = [
    ("/w/x.h", b""),
    ("/w/v.cc", b""),
    ("/usr/include/stdc-predef.h", b""),
    ("/usr/include/c++/12/vector", b""),
    ("/usr/include/x86_64-linux-gnu/c++/12/bits/c++config.h", b""),
    ("/usr/include/features.h", b""),
    ("/usr/include/x86_64-linux-gnu/bits/wordsize.h", b""),
    ("/w/we\"ird \\dir/a.c", b""),
    ("/w/we\"ird \\dir/h.h", b""),
    ("/w/we\"ird \\dir/s h.h", b""),
    ("/usr/lib/gcc/x86_64-linux-gnu/12/include/stddef.h", b""),
];

/// What the walk answers.
const IN_VECTOR: &str =
    "Ok(Names(Listed { items: [\"/usr/include/stdc-predef.h\", \"/usr/include/c++/12/vector\", \
    \"/usr/include/x86_64-linux-gnu/c++/12/bits/c++config.h\", \"/usr/include/features.h\", \
    \"/usr/include/x86_64-linux-gnu/bits/wordsize.h\"] }))";

const IN_ODD_FOLDER: &str =
    r#"Ok(Names(Listed { items: ["/usr/include/stdc-predef.h", "we\"ird \\dir/h.h", "we\"ird \\dir/s h.h", "/usr/lib/gcc/x86_64-linux-gnu/12/include/stddef.h"] }))"#;

/// The second of these names is of no file.
const TWICE: &[u8] =
    b"# 1 \"x.h\" 1\n# 1 \"gone.h\" 1\n# 3 \"x.h\" 2\n# 1 \"gone.h\" 1\n# 9 \"x.h\" 2\n";

/// The third of these names can't be read, and the last one isn't asked for any more.
const BROKEN: &[u8] = b"# 1 \"x.h\" 1\n# 1 \"gone.h\" 1\n# 1 \"broken.h\" 1\n# 1 \"y.h\" 1\n";

/// What the walk over a text of that input in `/w` answers.
fn answer(
    alloc: Global,
    files: &mut WatchedFiles<'_>,
    input: &[u8],
    text: &[u8],
) -> Result<String, AllocError> {
    let found = walk(alloc, text, input, b"/w", files);
    format!(in alloc; "{found:?}")
}

/// Whether it answers this, with so many calls of files: one for each name, however often it comes.
fn answers(
    alloc: Global,
    files: &mut WatchedFiles<'_>,
    input: &[u8],
    text: &[u8],
    want: &str,
    calls: u64,
) -> bool {
    files.calls = 0;
    match answer(alloc, files, input, text) {
        Ok(answer) => answer.as_str() == want && files.calls == calls,
        Err(_) => false,
    }
}

/// What is answered over each text.
fn texts_are_answered(alloc: Global, files: &mut WatchedFiles<'_>) -> Result<(), Fail> {
    let mut checks = Checks::new(alloc);
    let vector = answers(alloc, files, b"v.cc", VECTOR, IN_VECTOR, 5);
    checks.holds(vector, "a vector");
    let odd = answers(
        alloc,
        files,
        b"we\"ird \\dir/a.c",
        ODD_FOLDER,
        IN_ODD_FOLDER,
        4,
    );
    checks.holds(odd, "an odd folder");
    let one = "Ok(Names(Listed { items: [\"x.h\"] }))";
    checks.holds(answers(alloc, files, b"a.c", TWICE, one, 2), "twice");
    let read = "Err(Read(\"/w/broken.h\"))";
    checks.holds(answers(alloc, files, b"a.c", BROKEN, read, 3), "broken");
    checks.end()
}

#[test]
fn texts_name_their_files(rt: HostRuntime) -> Result<(), Fail> {
    let mut files = WatchedFiles {
        files: files_of(rt.alloc(), &FILES)?,
        calls: 0,
        broken: b"/w/broken.h",
        failed: 0,
    };
    texts_are_answered(rt.alloc(), &mut files)
}
