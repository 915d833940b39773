//! What to do so that a call is kept, for counters of calls that aren't.

/// Counters, each with what to do.
const ADVICE: &str = "\
called_for_link: Links aren't kept.
called_for_preprocessing: What only preprocesses isn't kept: compile the source itself.
compile_failed: Mend the source: what fails isn't kept.
preprocessor_error: Mend the source: what fails isn't kept.
disabled: Unset GULMAAT_DISABLE, or disable in a file of settings.
multiple_source_files: Compile each source by a command of its own.
no_input_file: There is nothing to keep.
output_to_stdout: Name an output by -o.
unsupported_compiler_option: Leave the option out, or name it in GULMAAT_ALLOW_OPTIONS where with it the object hangs on the text and the words alone.
unsupported_environment_variable: Unset the variable for the build: docs/WRAPPER.md lists them.
unsupported_code_directive: The assembler takes a file in (.incbin, .include): put it into a source of its own, so that the others are kept.
unsupported_source_language: Only C, C++ and the like are kept.
uncacheable_time_in_text: The source uses __TIME__: take it out, or define it to be one value.
could_not_use_precompiled_header: A precompiled header is in reach: build without precompiled headers.
modified_input_file: A file was changed while it was compiled: let what makes files run before what compiles them.
unsupported_compiler: The compiler is a script: name the compiler itself.
uncacheable_unknown_compiler: It isn't known as GCC or Clang: docs/REPORT.md has the names.
";

/// What to do about calls of this counter; nothing where nothing is known.
pub fn advice_for(what: &str) -> &'static str {
    for line in ADVICE.lines() {
        match line.split_once(": ") {
            Some((counter, advice)) if counter == what => return advice,
            _ => {}
        }
    }
    ""
}
