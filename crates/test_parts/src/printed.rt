//! Test of canonical texts of programs with class faults.
use crate::untyped_rows::{FAULTY, UNTYPED};
use command_inputs::read_program;
use pool_outside::MemSink;
use pool_printer::print;
use std::alloc::Global;

/// Appends the canonical text of a program to a sink.
fn put_canonical(alloc: Global, text: &str, sink: &mut MemSink) {
    if text.len() <= 1048576 {
        if let Ok(parsed) = read_program(alloc, text.as_bytes()) {
            let _ = print(&parsed.program, &parsed.names, sink);
        }
    }
}

/// A text in front of a statement, the statement, and a text behind it.
fn between(alloc: Global, front: &str, statement: &str, back: &str) -> String {
    let mut text = String::new(alloc);
    let _ = text.push_str(front);
    let _ = text.push_str(statement);
    let _ = text.push_str(back);
    text
}

/// Appends the canonical texts of the statement of a row, and of its canonical text, to a sink, and both times the one
/// that is wanted to a text.
fn put_row(alloc: Global, row: &str, sink: &mut MemSink, wanted: &mut String) {
    if let Some((statement, printed)) = row.split_once(" | ") {
        let text = between(alloc, "class A body ", statement, " end");
        let canonical = between(alloc, "class A\nbody ", printed, " end\n");
        put_canonical(alloc, text.as_str(), sink);
        put_canonical(alloc, canonical.as_str(), sink);
        let _ = wanted.push_str(canonical.as_str());
        let _ = wanted.push_str(canonical.as_str());
    }
}

/// Whether the programs of all rows are printed as they say.
fn are_printed(alloc: Global, sink: &mut MemSink) -> bool {
    let mut wanted = String::new(alloc);
    for row in UNTYPED.lines() {
        put_row(alloc, row, sink, &mut wanted);
    }
    for text in FAULTY {
        put_canonical(alloc, text, sink);
        let _ = wanted.push_str(FAULTY[1]);
    }
    sink.written() == wanted.as_bytes()
}

#[test]
fn programs_with_class_faults_are_printed(rt: HostRuntime) {
    let alloc = rt.alloc();
    let each = match MemSink::make(alloc, 65536, 10, Vec::new(alloc)) {
        Ok(mut sink) => are_printed(alloc, &mut sink),
        Err(_) => false,
    };
    assert!(rt; each);
}
