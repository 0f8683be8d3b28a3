//! Scripts that are read, and those that are refused at their first bad line.
use crate::{
    Bad, BadCause, LineKind, ScriptError, Shown, print_line, print_script, read_script, shown_line,
};
use bmx_types::{Name, NodeNo, Refusal, Text, Val};
use std::test::Fail;

const HEAD: &str = "bmx 1\nnodes 1\nbunch main\n";

/// The first bad line of a script, None where there is none.
fn bad_line(rt: &HostRuntime, text: &[u8]) -> Result<Option<Bad>, Fail> {
    match read_script(rt.alloc(), text) {
        Ok(_) => Ok(None),
        Err(ScriptError::Bad(bad)) => Ok(Some(bad)),
        Err(ScriptError::NoMemory) => Err("no memory")?,
    }
}

#[test]
fn a_first_script(rt: HostRuntime) -> Result<(), Fail> {
    let text = behind_head(
        &rt,
        "0 new r0 main 1\n0 write r0\n0 set r0 0 5\n# shown\n\n0 show r0 0\n0 done r0",
    )?;
    let Ok(script) = read_script(rt.alloc(), text.as_bytes()) else {
        return Err("it is a script")?;
    };
    assert_eq!(rt; script.limit(), 4096);
    assert_eq!(rt; script.nodes(), 1);
    assert_eq!(rt; script.bunches().len(), 1);
    let lines = script.lines().as_slice();
    assert_eq!(rt; lines.len(), 8);
    assert_eq!(rt; lines[6].number, 9);
    assert!(rt; matches!(lines[0].what, LineKind::Version));
    Ok(())
}

/// A script's head, and lines behind it.
fn behind_head(rt: &HostRuntime, lines: &str) -> Result<String, Fail> {
    let mut text = String::from_str(rt.alloc(), HEAD)?;
    text.push_str(lines)?;
    Ok(text)
}

#[test]
fn bad_heads(rt: HostRuntime) -> Result<(), Fail> {
    for (text, line, cause) in [
        ("", 1, BadCause::End),
        ("bmx 1\nnodes 1\n", 3, BadCause::End),
        ("bmx 2\nnodes 1\n", 1, BadCause::Form),
        ("\nbmx 1\n", 1, BadCause::Form),
        ("bmx 1\nphase\n", 2, BadCause::Form),
    ] {
        let bad = bad_line(&rt, text.as_bytes())?;
        assert_eq!(rt; bad, Some(Bad { line, cause }), "{text}");
    }
    assert_eq!(rt; bad_line(&rt, HEAD.as_bytes())?, None);
    Ok(())
}

#[test]
fn bad_forms(rt: HostRuntime) -> Result<(), Fail> {
    for line in [
        "0 sett r0 0 1",
        "0  write r0",
        "0 write r0 ",
        "0 write r01",
        "0 write 5",
        "0 set r0 0 -0",
        "0 same r0 @Main",
        "0 new r99 Main 33",
        "settle",
    ] {
        let text = behind_head(&rt, line)?;
        let bad = bad_line(&rt, text.as_bytes())?;
        let cause = BadCause::Form;
        assert_eq!(rt; bad, Some(Bad { line: 4, cause }), "{line}");
    }
    Ok(())
}

#[test]
fn bad_ranges(rt: HostRuntime) -> Result<(), Fail> {
    for line in [
        "0 set r0 0 9223372036854775808",
        "1 drop r0",
        "0 write r16",
        "0 read @other",
        "0 get r0 @main 256",
        "0 new r0 main 33",
        "segments 65536",
    ] {
        let text = behind_head(&rt, line)?;
        let bad = bad_line(&rt, text.as_bytes())?;
        let cause = BadCause::Range;
        assert_eq!(rt; bad, Some(Bad { line: 4, cause }), "{line}");
    }
    Ok(())
}

#[test]
fn nodes_and_phases(rt: HostRuntime) -> Result<(), Fail> {
    for (lines, bad) in [
        ("nodes 8\nbunch b\n0 drop r0\n7 drop r0", None),
        (
            "nodes 1\nbunch b\nphase\nquiet\nquiet\n0 drop r0\nphase",
            None,
        ),
        (
            "nodes 2\nbunch b\nsegments 9\n# one\n\nquiet\n1 read @b",
            None,
        ),
        ("nodes 0", at(2, BadCause::Range)),
        ("nodes 9", at(2, BadCause::Range)),
        ("nodes 08", at(2, BadCause::Form)),
        ("nodes 8", at(3, BadCause::End)),
        ("nodes 8\nquiet", at(3, BadCause::Form)),
        ("nodes 8\nbunch b\n8 drop r0", at(4, BadCause::Range)),
        (
            "nodes 2\nbunch b\n1 drop r0\nphase\n2 drop r0",
            at(6, BadCause::Range),
        ),
        ("nodes 2\nbunch b\n01 drop r0", at(4, BadCause::Form)),
        ("nodes 2\nbunch b\nphase\nsegments 9", at(5, BadCause::Form)),
        ("nodes 2\nbunch b\nquiet\nphase 2", at(5, BadCause::Form)),
        ("nodes 2\nbunch b\nphase \n2 drop r0", at(4, BadCause::Form)),
        ("nodes 2\nbunch b\nphase\nQuiet", at(5, BadCause::Form)),
        ("nodes 2\nbunch b\n1 quiet", at(4, BadCause::Form)),
        ("nodes 2\nbunch b\n1 collect b", at(4, BadCause::Form)),
        ("nodes 2\nbunch b\nquiet\nsettle", at(5, BadCause::Form)),
    ] {
        let mut text = String::from_str(rt.alloc(), "bmx 1\n")?;
        text.push_str(lines)?;
        assert_eq!(rt; bad_line(&rt, text.as_bytes())?, bad, "{lines}");
    }
    Ok(())
}

/// A bad line.
fn at(line: u32, cause: BadCause) -> Option<Bad> {
    Some(Bad { line, cause })
}

#[test]
fn a_limit_is_said_once(rt: HostRuntime) -> Result<(), Fail> {
    let text = behind_head(&rt, "segments 2\nsegments 2\n")?;
    let (line, cause) = (5, BadCause::Range);
    assert_eq!(rt; bad_line(&rt, text.as_bytes())?, Some(Bad { line, cause }));
    let text = behind_head(&rt, "segments 2\n0 drop r0\nsegments 2\n")?;
    let (line, cause) = (6, BadCause::Form);
    assert_eq!(rt; bad_line(&rt, text.as_bytes())?, Some(Bad { line, cause }));
    Ok(())
}

#[test]
fn a_printed_script(rt: HostRuntime) -> Result<(), Fail> {
    let text = behind_head(
        &rt,
        "# a limit\n\nsegments 9\n0 copy r1 @main\n0 same r1 null # no\n",
    )?;
    let (line, cause) = (8, BadCause::Form);
    assert_eq!(rt; bad_line(&rt, text.as_bytes())?, Some(Bad { line, cause }));
    let text = behind_head(
        &rt,
        "# a limit\n\nsegments 9\n0 copy r1 @main\n#\nphase\n0 same r1 null\nquiet\n# end",
    )?;
    let printed = printed_again(&rt, text.as_bytes())?;
    assert_eq!(rt;
        printed.as_str(),
        "bmx 1\nnodes 1\nbunch main\n\n\nsegments 9\n0 copy r1 @main\n\nphase\n0 same r1 null\nquiet\n"
    );
    let again = printed_again(&rt, printed.as_bytes())?;
    assert_eq!(rt; again.as_str(), printed.as_str());
    Ok(())
}

/// What a script prints.
fn printed_again(rt: &HostRuntime, text: &[u8]) -> Result<Text, Fail> {
    let Ok(script) = read_script(rt.alloc(), text) else {
        return Err("it is a script")?;
    };
    Ok(print_script(rt.alloc(), &script)?)
}

#[test]
fn the_most_lines(rt: HostRuntime) -> Result<(), Fail> {
    let mut text = String::from_str(rt.alloc(), HEAD)?;
    for _ in 0..19_997 {
        text.push_str("\n")?;
    }
    assert_eq!(rt; bad_line(&rt, text.as_bytes())?, None);
    text.push_str("\n")?;
    let (line, cause) = (20_001, BadCause::Long);
    assert_eq!(rt; bad_line(&rt, text.as_bytes())?, Some(Bad { line, cause }));
    Ok(())
}

#[test]
fn the_most_bytes(rt: HostRuntime) -> Result<(), Fail> {
    let mut text = behind_head(&rt, "#")?;
    for _ in 0..1_048_549 {
        text.push_str("a")?;
    }
    assert_eq!(rt; bad_line(&rt, text.as_bytes())?, None);
    text.push_str("a")?;
    let (line, cause) = (4, BadCause::Long);
    assert_eq!(rt; bad_line(&rt, text.as_bytes())?, Some(Bad { line, cause }));
    Ok(())
}

#[test]
fn printed_lines(rt: HostRuntime) -> Result<(), Fail> {
    let node = NodeNo::new(1).ok_or("node 1")?;
    let name = Name::new(node, 2).ok_or("the name 1.2")?;
    for (answer, text) in [
        (Shown::Value(Val::Null), "1 12 null\n"),
        (Shown::Value(Val::Int(-42)), "1 12 -42\n"),
        (Shown::Value(Val::Ref(name)), "1 12 1.2\n"),
        (Shown::Yes, "1 12 yes\n"),
        (Shown::No, "1 12 no\n"),
        (Shown::Refused(Refusal::NoToken), "1 12 refused token\n"),
        (Shown::Refused(Refusal::Full), "1 12 refused full\n"),
    ] {
        let line = print_line(rt.alloc(), node, 12, &answer)?;
        assert_eq!(rt; line.as_str(), text);
        assert_eq!(rt; shown_line(node, 12, &answer).as_str(), text);
    }
    Ok(())
}
