//! What sources ask for, and the times that they may paste. Names in quotes are shown in quotes, and those of `include_next` after `next`.

use crate::rows::{Question, Row, are_answered, says, text_or_fail, whether, yes_or_no};
use base_files::Lossy;
use cache_source_directives::{
    Asked, Directives, Search, add_defined, asks_for_files, directives_of, may_define, pastes_time,
    tells_time,
};
use std::alloc::{AllocError, Global};
use std::fmt::Write;
use std::test::Fail;
use tests_kit::words;

/// Sources, and what they ask for; `none` where that can't be determined.
const SOURCES: &str = r#"
 =>
int x;\n =>
#include "a.h"\n => "a.h"
#include <a.h> => <a.h>
  #  include\t"d/a b.h"\r\n => "d/a b.h"
#include"a.h"\n#include<b.h>\n => "a.h" <b.h>
#include_next <a.h>\n => next a.h
#include_next "a.h"\n => next a.h
#import "a.h"\n => "a.h" once
#pragma once\n#include <a.h> // b\n => <a.h> once
#if 0\n#include <never.h>\n#endif\n => <never.h>
// #include <a.h>\n =>
/* #include <a.h>\n*/\n =>
/* a */ #include <a.h>\n => <a.h>
/* a\n b */ #include <a.h>\n => <a.h>
/* a\n#include <a.h>\n*/\n => <a.h>
x #include <a.h>\n =>
#includes <a.h>\n =>
#define X include <a.h>\n =>
#include NAME\n => takes NAME
#include NAME // a\n => unclear
#include NAME(a)\n => unclear
#include_next NAME\n => unclear
#include_next NAME(a)\n => unclear
#ifdef A_B\n#if X\n#include NAME(a)\n#endif\n#endif\n => unless A_B
/* a */\n#ifdef A_B /* b */\n/**/\n#include NAME(a)\n => unless A_B
#ifdef A_B\n# /* a */\n#include_next NAME\n => unless A_B
#ifdef A_B\n#endif\n#include NAME(a)\n => unclear
#ifdef A_B\n# /* a */ endif\n#include NAME(a)\n => unclear
#ifdef A_B\n#else\n#include NAME(a)\n#endif\n => unclear
#ifndef A_B\n#include NAME(a)\n#endif\n => unclear
#ifdef __A_B\n#include NAME(a)\n#endif\n => unclear
/*\n#ifdef A_B\n*/\n#include NAME(a)\n => unclear
/\\\n*\n#ifdef A_B\n*/\n#include NAME(a)\n => unclear
#ifdef A_B\n/*\n#endif\n*/\n#include NAME(a)\n => unclear
a \\\n#ifdef A_B\n#include NAME(a)\n => unclear
R"(\n#ifdef A_B\n)"\n#include NAME(a)\n => unclear
#include\n =>
  #include's protect themselves, and so do others\n =>
#include (a)\n =>
#include /* a */ <a.h>\n => unclear
#/* a */include <a.h>\n => <a.h>
# // a\n#include <a.h>\n => <a.h>
# /* a\n# b\n*/\n#include <a.h>\n => <a.h>
# /* a\n*/ include <a.h>\n => <a.h>
# /* a *\\\n/ include <a.h>\n => none
#inc\\\nlude <a.h>\n => none
#\\\ninclude <a.h>\n => none
#include \\\n<a.h>\n => unclear
#include "<a.h>"\n => unclear
#include <a.h\n =>
/* a */ #include <a.h> /* b */\n => <a.h>
/* a *\\\n/ #include <a.h>\n => <a.h>
\u#include <a.h>\n => <a.h>
\0#include <a.h>\n => <a.h>
%:include <a.h>\n => none
\\\n %:include <a.h>\n => none
%\\\n:include <a.h>\n => none
/* a */ %:include <a.h>\n => none
/* a\n b */ %:include <a.h>\n => none
/* a *\\\n/ %:include <a.h>\n => none
x = "%:";\n#include <a.h>\n => <a.h>
??=include <a.h>\n => none
/* a */ ??=include <a.h>\n => none
x = "??=";\n =>
#inc??/\nlude <a.h>\n => none
int x; ??/ \r\n => none
/* See asm-???/a.h. */\n#include <a.h>\n => <a.h>
#include "a??/b.h"\n => unclear
#include "a\\\n.h"\n => unclear
#include <a\\ \r\n.h>\n => unclear
#include_next <a\\\n.h>\n => unclear
#ifdef A_B\n#include "a.h\\\n"\n#endif\n => unless A_B
#import <a\\\n.h>\n => unclear once
#include <a\\\r.h>\n => unclear
#include <a.h\r\n =>
#if __has_include("q\\\n.h")\n => none
#if __has_include(<q.\\\t\nh>)\n => none
#define HAS(x) __has_include("q\\\n.h")\n => none
#define HDR_\\\nNAME <a.h>\n => none
#define HDR\\\r\n_NAME <a.h>\n => none
#define HDR_\\ \nNAME <a.h>\n => none
#define H\\\n\\\n\\\nDR <a.h>\n => none
#define /* a */ HDR_\\\nNAME <a.h>\n => none
#define HDR_\\\rNAME <a.h>\n => none
#include HDR_\\\nNAME\n => none
#define MY_\\\nGUARD 1\n#ifdef MY_GUARD\n => none
#ifdef MY_\\\nGUARD\n#include CAT(n)\n#endif\n => none
#pragma on\\\nce\n => none
#pragma \\\nonce\n => none
#pragma clang \\\nmodule import a\n => none
#if _\\\n_has_include(<a.h>)\n => none
#define F(x) \\\n do { \\\n  g(x); \\\n } while (0)\n#include <a.h>\n => <a.h>
#define F\\\n\tg("a\\n\\\n b");\\\n\\\n\th("\\\\\\\n");\n#include <a.h>\n => <a.h>
#if defined(A) \\\n && B && \\\r\nC\n#include <a.h>\n => <a.h>
#pragma GCC poison a \\\n b\n#include <a.h>\n => <a.h>
#embed <a.bin>\n => none
#pragma GCC dependency "a.h"\n => none
#pragma GCC diagnostic push\n =>
#pragma clang module import a\n => none
#pragma include_alias("a.h", "b.h")\n => none
#if __has_include(<a.h>)\n => <a.h>
#if defined __has_include && __has_include ("a.h")\n => "a.h"
#ifdef __has_include\n#if defined(__has_include)\n =>
#if __has_include(<a.h>) || __has_include_next(<b.h>)\n => <a.h> next b.h
#if __has_include(NAME)\n => none
#if __has_include \\\n(<a.h>)\n => none
#define __has_include(x) 0\n =>
#define HAS(x) __has_include(x)\n => asks HAS
#define HAS __has_include\n => none
#define HAS_A __has_include(A)\n => none
#if __has_include /* a */ (<a.h>)\n => none
#ifdef __has_include /* a */\n =>
#ifdef __has_include // a (<a.h>)\n =>
#if defined __has_include /* a\n*/\n => none
/* By __has_include, where that is there. */\n =>
#if __has_inc\\\nlude(<a.h>)\n => none
#if PASTE(__has_, include)(<a.h>)\n => none
#if PASTE(__has_include, _next)(<a.h>)\n => none
#define HAS __has_ ## include\n => none
#define HAS(x) __has_##x\n =>
#pragma GCC \\\ndependency "a.h"\n => none
_Pragma("GCC dependency \\"a.h\\"")\n => none
PRAGMA(GCC dependency "a.h")\n => none
/* Each dependency of GCC, by GCC_dependency. */\n =>
/* GCC's. */\ndependency_list read(void);\n =>
"#;

/// Adds a name between two texts.
fn write_name(text: &mut String, front: &str, name: &[u8], back: &str) -> Result<(), AllocError> {
    let bytes = name;
    write!(text, " {front}{}{back}", Lossy { bytes })
}

/// Adds all of these.
fn write_all(text: &mut String, all: &[Asked<'_>]) -> Result<(), AllocError> {
    for asked in all {
        let (front, back) = match asked.search {
            Search::Quoted => ("\"", "\""),
            Search::Bracketed => ("<", ">"),
            Search::Next => ("next ", ""),
        };
        write_name(text, front, asked.name, back)?;
    }
    Ok(())
}

/// Adds names, each after a word.
fn write_names(text: &mut String, word: &str, names: &[&[u8]]) -> Result<(), AllocError> {
    for name in names {
        write_name(text, word, name, "")?;
    }
    Ok(())
}

/// Adds what a source asks for.
fn write_found(text: &mut String, found: &Directives<'_>) -> Result<(), AllocError> {
    write_all(text, found.asked.as_slice())?;
    write_names(text, "asks ", found.probes.as_slice())?;
    write_names(text, "takes ", found.computed.as_slice())?;
    write_names(text, "unless ", found.guards.as_slice())?;
    text.push_str(match (found.is_unclear, found.is_once) {
        (true, true) => " unclear once",
        (true, false) => " unclear",
        (false, true) => " once",
        (false, false) => "",
    })
}

/// What was found, as text.
fn text_of_found(alloc: Global, found: &Directives<'_>) -> Result<String, AllocError> {
    let mut text = String::new(alloc);
    write_found(&mut text, found)?;
    Ok(text)
}

/// What a source asks for, as text.
fn text_of(alloc: Global, source: &str) -> Result<String, AllocError> {
    match directives_of(alloc, source.as_bytes())? {
        Some(found) => text_of_found(alloc, &found),
        None => String::from_str(alloc, "none"),
    }
}

/// What a source asks for.
struct AskedFor;

impl Question for AskedFor {
    fn answer(&self, rt: &HostRuntime, row: &Row<'_>) -> Result<String, Fail> {
        text_or_fail(text_of(rt.alloc(), row.first))
    }
}

#[test]
fn sources_ask_for_files(rt: HostRuntime) -> Result<(), Fail> {
    are_answered(&rt, SOURCES, &AskedFor)
}

/// Sources, and what `NAME` stands for in them; `none` where that may be something other than the name of a file.
const DEFINED: &str = r#"
 =>
#define NAME <a.h>\n => <a.h>
#define NAME "a.h" => "a.h"
# define\tNAME\t"a.h" // b\n => "a.h"
#define NAME <a.h>\n#define NAME <b.h>\n => <a.h> <b.h>
#ifdef NAME\n#include NAME\n#endif\n =>
#ifndef NAME\n#undef NAME\n#if defined(NAME)\n =>
#define OTHER NAME\n =>
#define NAMES 1\n#define A_NAME 1\n =>
#define NAME\n => none
#define NAME OTHER\n => none
#define NAME(x) <a.h>\n => none
#define NAME "a" ".h"\n => none
#define NAME "<a.h>"\n => none
#define \\\n NAME OTHER\n => none
#define /* a */ NAME OTHER\n => none
#define NAME \\\n <a.h>\n => none
%: /* a */ define NAME OTHER\n => none
??=\\\ndefine NAME OTHER\n => none
#define NAME <a\\\n.h>\n => none
#define NAME "a.h\\\r\n"\n => none
#define NAME <a.h> \\\n x\n => none
#define /* a *\\\n/ NAME OTHER\n => none
#define OTHER(x) \\\n x; \\\n NAME\n =>
// They define NAME as needed.\n =>
"#;

/// All of these, as text.
fn text_of_all(alloc: Global, all: &[Asked<'_>]) -> Result<String, AllocError> {
    let mut text = String::new(alloc);
    write_all(&mut text, all)?;
    Ok(text)
}

/// What a macro stands for in a source, as text.
fn text_of_defined(alloc: Global, source: &str) -> Result<String, AllocError> {
    let mut found = Vec::new(alloc);
    if add_defined(source.as_bytes(), b"NAME", &mut found)? {
        text_of_all(alloc, found.as_slice())
    } else {
        String::from_str(alloc, "none")
    }
}

/// What a macro stands for.
struct StandsFor;

impl Question for StandsFor {
    fn answer(&self, rt: &HostRuntime, row: &Row<'_>) -> Result<String, Fail> {
        text_or_fail(text_of_defined(rt.alloc(), row.first))
    }
}

#[test]
fn macros_stand_for_files(rt: HostRuntime) -> Result<(), Fail> {
    are_answered(&rt, DEFINED, &StandsFor)
}

/// Sources, and whether they may define `A_B` where it isn't defined yet.
const DEFINING: &str = r#"
#define A_B\n => yes
#ifdef A_B\n#define A_B 1\n#endif\n => no
#ifdef A_B\n# /* a */ endif\n#define A_B 1\n => yes
#ifdef A_B\n#else\n#define A_B\n#endif\n => yes
#ifdef X_Y\n#define A_B\n#endif\n => yes
/*\n#ifdef A_B */\n#define A_B\n => yes
#define \\\nA_B \\\n 1\n => yes
#define A_BC\n#undef A_B\n#define X A_B\n => no
"#;

/// Whether a source may define the macro.
struct MayDefine;

impl Question for MayDefine {
    fn answer(&self, rt: &HostRuntime, row: &Row<'_>) -> Result<String, Fail> {
        let may_define = may_define(rt.alloc(), row.first.as_bytes(), b"A_B");
        whether(rt.alloc(), may_define)
    }
}

#[test]
fn macros_are_defined_where_they_are_not(rt: HostRuntime) -> Result<(), Fail> {
    are_answered(&rt, DEFINING, &MayDefine)
}

/// Sources, and whether they may paste a macro of the time.
const PASTED: &str = r#"
PASTE(__TI, ME__) => yes
a = __TIME %:%: S; => yes
__DA??=??=TE__ => yes
PASTE( __DATE_ , _) => yes
a = __TIME ## S; => yes
#define FIRST __TIMEST\n => yes
__DA => yes
PASTE(__TIM/**/, E__) => yes

 => no
__TIME__ __DATE__ __TIMESTAMP__ => no
/* Defines __TIME*_T_TYPE macros. */ => no
__TIMESIZE __DADDR_T_TYPE => no
a__TI, x__DATE) => no
TIME DATE __T => no
"#;

/// Whether a source may paste a macro of the time.
struct PastesTime;

impl Question for PastesTime {
    fn answer(&self, rt: &HostRuntime, row: &Row<'_>) -> Result<String, Fail> {
        yes_or_no(rt.alloc(), pastes_time(row.first.as_bytes()))
    }
}

#[test]
fn times_are_pasted(rt: HostRuntime) -> Result<(), Fail> {
    are_answered(&rt, PASTED, &PastesTime)
}

/// Words, whether one of them may bring a day or a time into a text, and whether a macro of theirs may ask for a file.
const WORDS: &str = r#"
-c a.c =>
-DNOW=__TIME__ -c a.c => time
-D DAY=__DATE__ => time
-DFIRST=__TI => time
-DTIME -UDATE =>
-DHAS(x)=__has_include(x) => file
-D HAS=__has_include_next => file
-Wp,-DFIRST=__has_ -c a.c => file
-DASKS=_Pragma("GCC/**/dependency\\"a.h\\"") => file
-DHAS=__has_attribute -Iinclude =>
-D__DATE__= -D__TIME__="now" =>
-D __TIMESTAMP__=then =>
-D__DATE__=__TIME__ => time
-D__DATE__=__TI => time
-Wp,-D__DATE__=then => time
"#;

/// What words bring: times, and files.
struct Brought;

impl Question for Brought {
    fn answer(&self, rt: &HostRuntime, row: &Row<'_>) -> Result<String, Fail> {
        let list = words(rt.alloc(), row.first)?;
        let tells = tells_time(list.as_slice());
        let asks = asks_for_files(list.as_slice());
        let text = match (tells, asks) {
            (true, true) => "time file",
            (true, false) => "time",
            (false, true) => "file",
            (false, false) => "",
        };
        says(rt.alloc(), text)
    }
}

#[test]
fn words_tell_times_and_ask_for_files(rt: HostRuntime) -> Result<(), Fail> {
    are_answered(&rt, WORDS, &Brought)
}
