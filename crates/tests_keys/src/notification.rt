//! rustc's notifications that it has written metadata.

use rustkeys::is_rmeta_artifact_notification;
use std::alloc::Global;
use std::test::Fail;
use tests_kit::holds;

/// Lines that report a file of metadata: numbers in them are whole. The member may contain an escape, but the line has to contain the extension
/// unescaped. Of repeated members the last one counts. JSON may nest 127 deep.
const TELLING: &str = r#"{"artifact":"/t/a.rmeta","emit":"metadata"}
{"artifact":"C:\\t\\a.rmeta","emit":"metadata"}
{"artifact":"/t/a\"b.rmeta","emit":"metadata"}
  { "emit" : "metadata" , "artifact" : ".rmeta" }
{"artifact":"a.rmeta","n":1}
{"artifact":"a.rmeta","n":-1}
{"artifact":"a.rmeta","n":0}
{"artifact":"a.rmeta","n":18446744073709551615}
{"artifact":"a.rmeta","n":-9223372036854775808}
{"artifact":"a.rmeta","n":[1,{"m":[2]}]}
{"artifact":"/t/a\u002ermeta","emit":"b.rmeta"}
{"\u0061rtifact":"/t/a.rmeta"}
{"artifact":"a.rlib","artifact":"a.rmeta"}
{"artifact":"a.rmeta","n":1.5,"n":1}
{"artifact":"a.rmeta","n":[[[[[[[[[[[[[[[[[[[[[[[[[[[[[[[[[[[[[[[[[[[[[[[[[[[[[[[[[[[[[[[[[[[[[[[[[[[[[[[[[[[[[[[[[[[[[[[[[[[[[[[[[[[[[[[[[[[[[[[[[[[[[[]]]]]]]]]]]]]]]]]]]]]]]]]]]]]]]]]]]]]]]]]]]]]]]]]]]]]]]]]]]]]]]]]]]]]]]]]]]]]]]]]]]]]]]]]]]]]]]]]]]]]]]]]]]]]]]]]]]]]]]]]]]]]]}"#;

/// Lines that don't: the object has to be alone, its artifact a text, and no number may have a fraction or be too great.
const OTHERS: &str = r#"{"artifact":"/t/a.rlib","emit":"link"}
{"artifact":"/t/a.rmeta.d","emit":"dep-info"}
{"$message_type":"diagnostic","message":"unused variable","level":"warning"}
{"message":"/t/a.rmeta"}
{"artifact":"/t/a.rlib","emit":"a.rmeta"}
{"inner":{"artifact":"/t/a.rmeta"}}
not json
not json of a.rmeta

[{"artifact":"/t/a.rmeta"}]
["/t/a.rmeta"]
"/t/a.rmeta"
{"artifact":"/t/a.rmeta"} {}
{"artifact":"/t/a.rmeta"
{"artifact":1,"emit":"a.rmeta"}
{"artifact":null,"emit":"a.rmeta"}
{"artifact":["a.rmeta"]}
{"Artifact":"a.rmeta"}
{"artifact":"a.rmeta","n":1.5}
{"artifact":"a.rmeta","n":1.0}
{"artifact":"a.rmeta","n":1e3}
{"artifact":"a.rmeta","n":-0}
{"artifact":"a.rmeta","n":18446744073709551616}
{"artifact":"a.rmeta","n":1e999}
{"artifact":"a.rmeta","n":[1,{"m":[0.5,2]}]}
{"artifact":"/t/a\u002ermeta","emit":"metadata"}
{"artifact":"a.rmeta","artifact":"a.rlib"}
{"artifact":"/t/a.d","emit":"dep-info"}
warning: 1 warning emitted
{"artifact":"a.rmeta","n":[[[[[[[[[[[[[[[[[[[[[[[[[[[[[[[[[[[[[[[[[[[[[[[[[[[[[[[[[[[[[[[[[[[[[[[[[[[[[[[[[[[[[[[[[[[[[[[[[[[[[[[[[[[[[[[[[[[[[[[[[[[[[[[]]]]]]]]]]]]]]]]]]]]]]]]]]]]]]]]]]]]]]]]]]]]]]]]]]]]]]]]]]]]]]]]]]]]]]]]]]]]]]]]]]]]]]]]]]]]]]]]]]]]]]]]]]]]]]]]]]]]]]]]]]]]]]]}"#;

/// Each of the lines reports a file of metadata, or each doesn't, also with its end.
fn each_tells(alloc: Global, lines: &str, tells: bool) -> Result<(), Fail> {
    for line in lines.split_inclusive('\n') {
        holds(is_rmeta_artifact_notification(alloc, line)? == tells, line)?;
    }
    Ok(())
}

#[test]
fn lines_tell_of_metadata_or_do_not(rt: HostRuntime) -> Result<(), Fail> {
    each_tells(rt.alloc(), TELLING, true)?;
    each_tells(rt.alloc(), OTHERS, false)
}
