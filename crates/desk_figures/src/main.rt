// The paper's figures about format and ask that are run: each line says what was tried and what came out. The store has L 2, Z 1, S 2, N 3
// and the starting leaves 3, 0, 1 where a line says nothing else. Assumes nothing.
#![tactic(auto)]

use desk::{Kind, Status};
use sizes::Refusal;
use std::io;
use std::io::Write;

// 186 + 3N + 68S
const DESK: usize = 331;

fn put_refusal(out: &mut impl Write, r: Refusal) -> io::Result<()> {
    writeln!(out, "refused {}", u8::from(r))
}

fn put_outcome(out: &mut impl Write, o: Result<(), Refusal>) -> io::Result<()> {
    match o {
        Ok(()) => writeln!(out, "done"),
        Err(r) => put_refusal(out, r),
    }
}

fn put_asked(out: &mut impl Write, a: Result<u16, Refusal>) -> io::Result<()> {
    match a {
        Ok(leaf) => writeln!(out, "leaf {leaf}"),
        Err(r) => put_refusal(out, r),
    }
}

// Format, at the edges of each size: L, Z and N. The starting leaves are 1, 0, 1.
fn format_lines(out: &mut impl Write) -> io::Result<()> {
    let key = [7u8; 32];
    let starts = [1u16, 0, 1];
    for (what, height, slots, ids) in [
        ("L 0", 0, 1, 3),
        ("L 1", 1, 1, 3),
        ("L 12", 12, 1, 3),
        ("L 13", 13, 1, 3),
        ("Z 0", 2, 0, 3),
        ("Z 1", 2, 1, 3),
        ("Z 8", 2, 8, 3),
        ("Z 9", 2, 9, 3),
        ("N 0", 2, 1, 0),
        ("N 4097", 2, 1, 4097),
        ("N 4, desk and starting leaves of N 3", 2, 1, 4),
    ] {
        let mut buffer = [255u8; DESK];
        write!(out, "format {what}: ")?;
        put_outcome(
            out,
            formats::format(&mut buffer, height, slots, 2, ids, &key, &starts),
        )?;
    }
    Ok(())
}

// Ask in a new desk, at the edges of the id, the new leaf and the record.
fn ask_lines(out: &mut impl Write) -> io::Result<()> {
    let key = [7u8; 32];
    let starts = [3u16, 0, 1];
    let record = [9u8; 64];
    let whole = &record[..];
    let short = &record[..63];
    for (what, kind, id, leaf, record) in [
        ("ask id 0", Kind::Read, 0, 0, whole),
        ("ask id 1", Kind::Read, 1, 0, whole),
        ("ask id N", Kind::Read, 3, 0, whole),
        ("ask id N + 1", Kind::Read, 4, 0, whole),
        ("ask id 1, new leaf 2^L - 1", Kind::Read, 1, 3, whole),
        ("ask id 1, new leaf 2^L", Kind::Read, 1, 4, whole),
        ("write id 1, record of 64", Kind::Write, 1, 2, whole),
        ("write id 1, record of 63", Kind::Write, 1, 2, short),
        ("read id 1, buffer of 63", Kind::Read, 1, 2, short),
    ] {
        let mut buffer = [255u8; DESK];
        let _ = formats::format(&mut buffer, 2, 1, 2, 3, &key, &starts);
        write!(out, "{what}: ")?;
        put_asked(out, asks::ask(&mut buffer, kind, id, leaf, record))?;
    }
    Ok(())
}

// Ask twice: the second finds the desk open. Then a desk that no format wrote.
fn open_lines(out: &mut impl Write) -> io::Result<()> {
    let mut buffer = [255u8; DESK];
    let key = [7u8; 32];
    let starts = [3u16, 0, 1];
    let record = [9u8; 64];
    write!(out, "ask, desk never formatted: ")?;
    put_asked(out, asks::ask(&mut buffer, Kind::Read, 1, 0, &record))?;
    let _ = formats::format(&mut buffer, 2, 1, 2, 3, &key, &starts);
    write!(out, "ask id 2: ")?;
    put_asked(out, asks::ask(&mut buffer, Kind::Write, 2, 3, &record))?;
    write!(out, "ask again, desk open: ")?;
    put_asked(out, asks::ask(&mut buffer, Kind::Read, 2, 3, &record))?;
    buffer[desk::STATUS] = u8::from(Status::Forged);
    write!(out, "ask again, desk stopped as forged: ")?;
    put_asked(out, asks::ask(&mut buffer, Kind::Read, 2, 3, &record))
}

fn main(rt: HostRuntime) -> io::Result<()> {
    let mut out = rt.stdout();
    format_lines(&mut out)?;
    ask_lines(&mut out)?;
    open_lines(&mut out)
}
