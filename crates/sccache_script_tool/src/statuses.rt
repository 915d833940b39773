//! The statuses that the scripted compilers end with, by two closures.

ghost use Rattle.std.specs.Prelude.{◌≡◌, pos};
ghost use Rattle.sccache_script_tool.specs.Texts.{error_status};

use crate::scripting::holds_error;

/// A status, by the text that a step went over.
pub type StatusOf = Box<dyn Fn(&[u8]) -> i32>;

/// The statuses of a preprocessor, by the text that it prints, and of a compiler, by the text that it compiles. The closures are the
/// caller's, and whoever made them, a preprocessor that prints a text ends with 0, and a compiler with 1 where its text holds
/// `#error` and else with 0.
#[derive(Drop)]
pub struct Statuses {
    print: StatusOf,
    compile: StatusOf,
    ghost prints: { StatusOf.IsAlwaysCallable print },
    ghost print_ends: { (text : _) (status : _) → StatusOf.post print text status → status ≡ pos 0 },
    ghost compiles: { StatusOf.IsAlwaysCallable compile },
    ghost compile_ends: { (text : _) (status : _) → StatusOf.post compile text status → status ≡ error_status text.now },
}

impl Statuses {
    /// Keeps the closures, each of which may be called on all texts.
    pub fn new(print: StatusOf, compile: StatusOf) -> Statuses
        requires prints { StatusOf.IsAlwaysCallable print }
        requires print_ends { (text : _) (status : _) → StatusOf.post print text status
            → status ≡ pos 0 }
        requires compiles { StatusOf.IsAlwaysCallable compile }
        requires compile_ends { (text : _) (status : _) → StatusOf.post compile text status
            → status ≡ error_status text.now }
    {
        Statuses { print, compile }
    }

    /// What a preprocessor ends with that prints this text.
    pub fn of_print(&self, text: &[u8]) -> i32
        ensures { result ≡ pos 0 }
    {
        (self.print)(text)
    }

    /// What a compiler ends with that compiles this text.
    pub fn of_compile(&self, text: &[u8]) -> i32
        ensures { result ≡ error_status text.now }
    {
        (self.compile)(text)
    }
}

/// 0, whatever is printed.
pub fn print_status(_text: &[u8]) -> i32
    ensures { result ≡ pos 0 }
{
    0
}

/// 1 where the text holds `#error`, and else 0.
pub fn error_status(text: &[u8]) -> i32
    ensures { result ≡ error_status text.now }
{
    if holds_error(text) { 1 } else { 0 }
}
