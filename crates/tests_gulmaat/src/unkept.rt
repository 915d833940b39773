//! Texts, and whether what is made of them is kept.

use crate::rows::{Question, Row, are_answered, yes_or_no};
use cache_unkept_texts::{takes_files, tells_time};
use std::test::Fail;

/// Texts, and whether they take in files.
const TEXTS: &str = r#"
.incbin "a.bin" => yes
\t.include "a.s"\n => yes
start: .INCBIN "a.bin" => yes
1:.Include "a.s" => yes
nop; .incbin\t"a.bin" => yes
asm(".incbin \\"a.bin\\""); => yes
asm("nop\\n.incbin \\"a.bin\\""); => yes
asm("nop\\n\\t.include \\"a.s\\""); => yes
asm(".inc" "bin \\"a.bin\\""); => yes
asm(".inc"\n# 4 "x.c"\n"bin \\"a.bin\\""); => yes
asm("." "" "incbin \\"a.bin\\""); => yes
asm("\\56incbin \\"a.bin\\""); => yes
asm("\\056inc\\x62in \\"a.bin\\""); => yes
asm("\\x2eINCBIN \\"a.bin\\""); => yes
asm(".incbin %0" : : "i"(name)); => yes
asm("nop\\012.incbin \\"a.bin\\""); => yes
asm(".inc" u8"bin \\"a.bin\\""); => yes
.macro take file\n.incbin \\file\n.endm => yes
.incbin <a.bin> => yes
asm(".include\\t\\"a.s\\""); => yes
asm(R"(\n.incbin "a.bin"\n)"); => yes
asm(".inc" "" "" "" "" "" "" "" "" "" "" "" "" "" "" "" "" "" "" "" "" "bin \\"a.bin\\""); => yes
asm(".inc"\n# 4 "x.c"\n# 4 "x.c"\n# 4 "x.c"\n# 4 "x.c"\n# 4 "x.c"\n# 4 "x.c"\n# 4 "x.c"\n# 4 "x.c"\n# 4 "x.c"\n# 4 "x.c"\n# 4 "x.c"\n# 4 "x.c"\n# 4 "x.c"\n# 4 "x.c"\n# 4 "x.c"\n# 4 "x.c"\n# 4 "x.c"\n# 4 "x.c"\n# 4 "x.c"\n# 4 "x.c"\n"bin \\"a.bin\\""); => yes
.incbin => yes
.macro m op\n.\\op "d.bin"\n.endm\nm incbin\n => yes
.macro m op\n\t.\\op\\()bin "d.bin"\n.endm\nm inc\n => yes
.irp f,incbin\n.\\f "d.bin"\n.endr\n => yes
.irp f,bin\nstart: .inc\\f "d.bin"\n.endr\n => yes
.irpc f,b\nnop; .INC\\f\\()in "d.bin"\n.endr\n => yes
.altmacro\n.macro m x\n.inc&x "d.bin"\n.endm\nm bin\n => yes
.macro m\n.\\()incbin "d.bin"\n.endm\nm\n => yes
.macro m op\nn .\\op\n.endm\n => yes
.macro m op\n\\op "d.bin"\n.endm\nm .incbin\n.globl x\n => yes
.macro m op, file\n\\op "\\file"\n.endm\nm .include, a.s\n => yes
.irp op,.incbin,.x\n\\op "d.bin"\n.endr\n => yes
asm(".macro m op\\n.\\\\op \\"d.bin\\"\\n.endm\\nm incbin"); => yes
asm(".macro m op\\n"\n".\\\\op \\"d.bin\\"\\n"\n".endm\\nm incbin"); => yes
asm("nop\\n\\t.inc\\\\op \\"d.bin\\"\\n"); => yes
asm("nop\\012.inc\\134op \\"d.bin\\"\\n"); => yes
asm(".inc" "\\\\op \\"d.bin\\"\\n"); => yes
asm(".inc{bin|x} \\"d.bin\\"" : : ); => yes
asm(".{inc|x}bin \\"d.bin\\"" : : ); => yes
asm(".{x|inc}bin \\"d.bin\\"" : : ); => yes
asm("nop\\n\\t.{incbin|include} \\"d.bin\\"" : : ); => yes
asm("{.incbin|.x} \\"d.bin\\"" : : ); => yes
asm("{.x|.include} \\"d.s\\"" : : ); => yes
asm("{nop; .inc|.x}bin \\"d.bin\\"" : : ); => yes
asm(".incbin{ \\"d.bin\\"| 1}" : : ); => yes
# 1 "x.c"\n#pragma GCC pch_preprocess "./h.h.gch"\nint x;\n => yes

 => no
int x; => no
options.include = x; => no
struct s s = { .include = 1, .incbin = 2 }; => no
f(a.include, b->c.include); => no
puts("parts.include/x.h"); => no
a[1].include (x); => no
get().include\n= 2; => no
.includes "a" => no
puts(".include_dirs"); => no
# 1 "a.include/x.h" => no
x = .5; y = 1.e3; => no
.macro branch cond\n\tb.\\cond label\n.endm\n => no
asm("nop\\n\\tb.\\\\cond label\\n"); => no
.macro m name\n.L\\name:\n.globl \\name\n.Lfoo\\@:\n.\\@:\n.endm\n => no
asm(".L\\\\name:\\n.globl \\\\name\\n.\\\\@:"); => no
.macro m insn\n\\insn x0, x1\n.endm\nm add\n => no
.section .text.\\name, "ax"\n => no
asm("{movl %1, %0|mov %0, %1}" : : ); => no
asm("add{l}\\t{%1, %0|%0, %1}\\n\\t.byte 1" : : ); => no
asm("{.intel|.att}_syntax noprefix" : : ); => no
puts(".\\n"); puts("Wait .\\n"); puts("..\\r\\n.\\r\\n"); => no
format("{:.{}f} {0:.{1}f} .{}", x); => no
s = { .include{ 1 }, .include\n= 2 }; => no
x.include\n    .include("a")\n    .incbin[1]; => no
#pragma GCC diagnostic push\n => no
"#;

/// Whether a text takes in files.
struct TakesFiles;

impl Question for TakesFiles {
    fn answer(&self, rt: &HostRuntime, row: &Row<'_>) -> Result<String, Fail> {
        yes_or_no(rt.alloc(), takes_files(row.first.as_bytes()))
    }
}

#[test]
fn directives_take_in_files(rt: HostRuntime) -> Result<(), Fail> {
    are_answered(&rt, TEXTS, &TakesFiles)
}

/// A moment at 12:34:56 of UTC, in the middle of a day, and one at 23:30:00.
const NOON: i64 = 1_700_051_696;

const LATE: i64 = 1_700_091_000;

/// Texts, moments and zones of calls, and whether their object has another time than the text.
const TIMES: &str = r#"
f("12:34:56"); | noon | UTC+00:00:00 => yes
f("12:34:55"); | noon | UTC+00:00:00 => yes
f("12:40:00"); | noon | UTC+00:00:00 => yes
f("14:34:58"); | noon | UTC-02:00:00 => yes
f("07:35:00"); | noon | UTC+05:00:00 => yes
f("Nov 15 2023"); | late | UTC+00:00:00 => yes
f("01:02:03"); | noon => yes

f("12:34:50"); | noon | UTC+00:00:00 => no
f("11:00:00"); | noon | UTC+00:00:00 => no
f("12:34:56 "); | noon | UTC+00:00:00 => no
f(12:34:56); | noon | UTC+00:00:00 => no
f("12:34:56"); | noon | UTC-02:00:00 => no
f("Nov 15 2023"); | noon | UTC+00:00:00 => no
"#;

/// Whether a text tells a time of the call.
struct TellsTime;

impl Question for TellsTime {
    fn answer(&self, rt: &HostRuntime, row: &Row<'_>) -> Result<String, Fail> {
        let moment = if matches!(row.second, "noon") {
            NOON
        } else {
            LATE
        };
        yes_or_no(
            rt.alloc(),
            tells_time(row.first.as_bytes(), moment, row.third),
        )
    }
}

#[test]
fn a_time_of_the_call_is_told(rt: HostRuntime) -> Result<(), Fail> {
    are_answered(&rt, TIMES, &TellsTime)
}
