//! Tests of files and sinks in memory, with calls that fail.
ghost use Rattle.std.specs.Prelude.{◌≡◌, ◌+◌, ◌-◌, ◌^◌, ◌<◌, IsTrue};

use pool_outside::{
    CalmFiles, CalmSink, Files, MemFiles, MemSink, NamedText, PieceFiles, ReadFault, Sink,
    read_whole, write_all_of,
};
use std::alloc::Global;

/// A text under a name, with so many repetitions of a part.
fn repeated(alloc: Global, name: &str, part: &str, count: u32) -> NamedText {
    let mut own = String::new(alloc);
    let _ = own.push_str(name);
    let mut text = String::new(alloc);
    for _ in 0..count {
        let _ = text.push_str(part);
    }
    NamedText {
        name: own,
        text: text.into_bytes(),
    }
}

/// A short text and a long one.
fn texts(alloc: Global) -> Vec<NamedText> {
    let mut texts = Vec::new(alloc);
    let _ = texts.push(repeated(alloc, "short", "seven b", 1));
    let _ = texts.push(repeated(alloc, "long", "xxxxxxxxxx", 10_000));
    texts
}

/// Appends the text of a file if it is short, and else its length; or the fault.
fn read<F: Files>(told: &mut String, alloc: Global, files: &mut F, name: &str, limit: usize)
    requires allowed { IsTrue (F.may files.old (F.opens files.old) name.now) }
    requires countable { F.opens files.old < 2 ^ 64 - 1 }
    requires bounded { limit < 2 ^ 32 }
    ensures opened_once { F.opens files.new ≡ F.opens files.old + 1 }
    ensures same_leave { F.may files.new ≡ F.may files.old }
{
    let _ = told.push_str(" ");
    let _ = match read_whole(alloc, files, name, limit) {
        Ok(text) if text.len() < 10 => told.push_str(str::from_utf8(&text).unwrap_or("")),
        Ok(text) => write!(told, "{}", text.len()),
        Err(ReadFault::Failed) => told.push_str("Failed"),
        Err(ReadFault::TooLong) => told.push_str("TooLong"),
        Err(ReadFault::Memory) => told.push_str("Memory"),
    };
}

/// Appends whether a piece was written whole.
fn write<K: Sink>(told: &mut String, sink: &mut K, piece: &str) {
    let is_whole = write_all_of(sink, piece.as_bytes()).is_ok();
    let _ = told.push_str(if is_whole { " whole" } else { " failed" });
}

/// A list of one number.
fn only(alloc: Global, number: u64) -> Vec<u64> {
    let mut numbers = Vec::new(alloc);
    let _ = numbers.push(number);
    numbers
}

/// Appends the results of reads of files in memory.
fn read_in_memory(told: &mut String, alloc: Global) {
    // call 3 opens, and call 4, the first read, fails
    let mut files = MemFiles::make(texts(alloc), only(alloc, 4));
    read(told, alloc, &mut files, "short", 7);
    read(told, alloc, &mut files, "short", 7);
    read(told, alloc, &mut files, "short", 6);
    read(told, alloc, &mut files, "none", 6);
    read(told, alloc, &mut files, "long", 100_000);
    let mut calm = CalmFiles::make(texts(alloc));
    read(told, alloc, &mut calm, "none", 0);
    read(told, alloc, &mut calm, "short", 7);
    let mut pieces = PieceFiles::make(texts(alloc), 1);
    read(told, alloc, &mut pieces, "short", 7);
}

/// Appends the results of writes to a sink in memory, and the text in the sink.
fn write_in_memory(told: &mut String, alloc: Global) {
    // writes 0 to 2 take three, three and one byte, write 3 fails, and write 4 fills the room
    if let Ok(mut sink) = MemSink::make(alloc, 9, 3, only(alloc, 3)) {
        write(told, &mut sink, "seven b");
        write(told, &mut sink, "abc");
        write(told, &mut sink, "abc");
        let _ = told.push_str(str::from_utf8(sink.written()).unwrap_or(""));
    }
}

#[test]
fn texts_are_read_and_written_whole(rt: HostRuntime) {
    let mut told = String::new(rt.alloc());
    read_in_memory(&mut told, rt.alloc());
    write_in_memory(&mut told, rt.alloc());
    write(&mut told, &mut CalmSink::make(), "abc");
    assert!(rt;
        told.as_str()
            == " seven b Failed TooLong Failed 100000  seven b seven b whole failed failedseven bab whole"
    );
}
