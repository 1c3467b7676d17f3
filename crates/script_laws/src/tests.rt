// The edges of the grammar: what each limit lets through, and which problem is named past it.
use script::problem::Problem;
use script::progress::Script;
use script::read::read_statement;
use script::statement::Statement;
use std::alloc::{AllocError, Global};
use std::test::Fail;

fn problem_in(line: &[u8]) -> Option<Problem> {
    read_statement(line).err()
}

// What is wrong with a line that ends with so many times the same bytes.
fn problem_in_long(
    heap: Global,
    front: &[u8],
    unit: &[u8],
    times: usize,
) -> Result<Option<Problem>, AllocError> {
    let mut line = Vec::from_slice(heap, front)?;
    for _ in 0..times {
        line.extend_from_slice(unit)?;
    }
    Ok(problem_in(&line))
}

fn read_lines(heap: Global, a: &[u8], b: &[u8], c: &[u8]) -> Result<(), Problem> {
    let mut script = Script::new(heap);
    let _ = script.read_line(a)?;
    let _ = script.read_line(b)?;
    let _ = script.read_line(c)?;
    Ok(())
}

// The first thing that is wrong with a script of three lines.
fn problem_in_script(heap: Global, a: &[u8], b: &[u8], c: &[u8]) -> Option<Problem> {
    read_lines(heap, a, b, c).err()
}

fn decodes(heap: Global, line: &[u8], bytes: &[u8]) -> Result<bool, Problem> {
    let mut out = Vec::from_slice(heap, b"before")?;
    if let Statement::Event(event) = read_statement(line)? {
        event.payload.decode(&mut out)?;
    }
    Ok(out.as_slice() == bytes)
}

#[test]
fn passes_over(rt: HostRuntime) {
    assert_eq!(rt; problem_in(b""), None);
    assert_eq!(rt; problem_in(b"# any \r\t\xff"), None);
    assert_eq!(rt; problem_in(b" "), Some(Problem::UnknownStatement));
    assert_eq!(rt; problem_in(b"server"), Some(Problem::UnknownStatement));
    assert_eq!(rt; problem_in(b"server\ta"), Some(Problem::UnknownStatement));
}

#[test]
fn names(rt: HostRuntime) -> Result<(), Fail> {
    assert_eq!(rt; problem_in_long(rt.alloc(), b"server ", b"a", 253)?, None);
    assert_eq!(rt;
        problem_in_long(rt.alloc(), b"server ", b"a", 254)?,
        Some(Problem::ServerName)
    );
    assert_eq!(rt; problem_in(b"server "), Some(Problem::ServerName));
    assert_eq!(rt; problem_in(b"server  a"), Some(Problem::ServerName));
    assert_eq!(rt; problem_in(b"server a "), Some(Problem::ServerName));
    assert_eq!(rt; problem_in(b"server a\r"), Some(Problem::ServerName));
    Ok(())
}

#[test]
fn methods(rt: HostRuntime) {
    assert_eq!(rt; problem_in(b"allow - /"), None);
    assert_eq!(rt; problem_in(b"allow A,B,C,D,E,F,G,H /"), None);
    assert_eq!(rt;
        problem_in(b"allow A,B,C,D,E,F,G,H,I /"),
        Some(Problem::TooManyMethods)
    );
    assert_eq!(rt; problem_in(b"deny GET, /"), Some(Problem::Methods));
    assert_eq!(rt; problem_in(b"deny  GET /"), Some(Problem::Methods));
    assert_eq!(rt;
        problem_in(b"deny AAAAAAAAAAAAAAAAA /"),
        Some(Problem::Methods)
    );
    assert_eq!(rt; problem_in(b"deny GET"), Some(Problem::RuleWords));
}

#[test]
fn paths(rt: HostRuntime) -> Result<(), Fail> {
    assert_eq!(rt;
        problem_in_long(rt.alloc(), b"allow GET ", b"/a", 16)?,
        None
    );
    assert_eq!(rt;
        problem_in_long(rt.alloc(), b"allow GET ", b"/a", 17)?,
        Some(Problem::TooManyParts)
    );
    assert_eq!(rt; problem_in(b"allow GET /a/"), Some(Problem::Path));
    assert_eq!(rt; problem_in(b"allow GET /A"), Some(Problem::Path));
    assert_eq!(rt; problem_in(b"allow GET a"), Some(Problem::Path));
    assert_eq!(rt; problem_in(b"allow GET / "), Some(Problem::Path));
    Ok(())
}

#[test]
fn senders(rt: HostRuntime) {
    assert_eq!(rt; problem_in(b"from client 16 00"), None);
    assert_eq!(rt;
        problem_in(b"from client 17 00"),
        Some(Problem::ClientNumber)
    );
    assert_eq!(rt;
        problem_in(b"from client 0 00"),
        Some(Problem::ClientNumber)
    );
    assert_eq!(rt;
        problem_in(b"from client 01 00"),
        Some(Problem::ClientNumber)
    );
    assert_eq!(rt;
        problem_in(b"from server 9 00"),
        Some(Problem::ServerNumber)
    );
    assert_eq!(rt; problem_in(b"from client 1"), Some(Problem::EventWords));
}

#[test]
fn payloads(rt: HostRuntime) -> Result<(), Fail> {
    assert!(rt; decodes(rt.alloc(), b"from client 1 00fFA9", b"\x00\xff\xa9")?);
    assert!(rt; decodes(rt.alloc(), b"from client 1 \"\"", b"")?);
    assert!(rt;
        decodes(
            rt.alloc(),
            b"from client 1 \" ~\\r\\n\\t\\\\\\\"\\xaF\"",
            b" ~\r\n\t\\\"\xaf",
        )?
    );
    Ok(())
}

#[test]
fn misspelled(rt: HostRuntime) {
    assert_eq!(rt; problem_in(b"from client 1 "), Some(Problem::Hexadecimal));
    assert_eq!(rt;
        problem_in(b"from client 1 474"),
        Some(Problem::Hexadecimal)
    );
    assert_eq!(rt; problem_in(b"from client 1 \"a"), Some(Problem::QuotedText));
    assert_eq!(rt;
        problem_in(b"from client 1 \"\\q\""),
        Some(Problem::QuotedText)
    );
    assert_eq!(rt;
        problem_in(b"from client 1 \"\x7f\""),
        Some(Problem::QuotedText)
    );
    assert_eq!(rt;
        problem_in(b"from client 1 \"\" "),
        Some(Problem::QuotedText)
    );
}

#[test]
fn scripts(rt: HostRuntime) {
    let heap = rt.alloc();
    assert_eq!(rt;
        problem_in_script(heap, b"server a", b"allow GET /", b"from server 1 00"),
        None
    );
    assert_eq!(rt;
        problem_in_script(heap, b"server a", b"", b"server A"),
        Some(Problem::ServerTwice)
    );
    assert_eq!(rt;
        problem_in_script(heap, b"", b"#", b"allow GET /"),
        Some(Problem::RuleWithoutServer)
    );
    assert_eq!(rt;
        problem_in_script(heap, b"", b"from client 1 00", b"server a"),
        Some(Problem::SettingAfterEvent)
    );
    assert_eq!(rt;
        problem_in_script(heap, b"server a", b"", b"from server 2 00"),
        Some(Problem::UnknownServer)
    );
}
